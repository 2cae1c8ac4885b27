//! What no report shows: kinds of tokens that are refused alike, and texts of many mebibytes.

use std::alloc::{AllocError, Global};
use std::test::Fail;
use tla_lex::*;

/// Words and operators that a module may not use. Each is refused by its own text, so no report distinguishes them.
const LEFT_OUT: &[u8] = b"---- MODULE M ----
ENABLED INSTANCE LAMBDA RECURSIVE WITH PROOF BY OBVIOUS OMITTED \\AA \\EE \\cdot -- -+->
====";

static LEFT_OUT_KINDS: [Kind; 14] = [
    Kind::Enabled,
    Kind::Instance,
    Kind::Lambda,
    Kind::Recursive,
    Kind::With,
    Kind::Proof,
    Kind::By,
    Kind::Obvious,
    Kind::Omitted,
    Kind::TemporalForAll,
    Kind::TemporalExists,
    Kind::Composition,
    Kind::MinusMinus,
    Kind::Guarantees,
];

#[test]
fn reads_what_is_left_out(rt: HostRuntime) -> Result<(), Fail> {
    let found = tokens(rt.alloc(), LEFT_OUT)?;
    assert!(rt; found.len() == LEFT_OUT_KINDS.len() + 3);
    for (token, kind) in found.iter().skip(2).zip(&LEFT_OUT_KINDS) {
        assert!(rt; token.kind == *kind, "{kind:?}");
    }
    Ok(())
}

/// A text, how often it is repeated after a module's first words, and the refusal with its place: many open comments, a
/// long line, a name of 64 mebibytes, and comments of as many.
static LONG: [(&str, u32, LexCode, u64, u128); 4] = [
    ("(*", 1_000_000, LexCode::OpenComment, 1, 19),
    (" <<<", 100_000, LexCode::NoClosingLine, 1, 400_019),
    ("x", 67_108_864, LexCode::NoClosingLine, 1, 67_108_883),
    ("\\*  \n  ", 8_388_608, LexCode::NoClosingLine, 8_388_609, 3),
];

fn repeated(alloc: Global, mark: &[u8], times: u32) -> Result<Vec<u8>, AllocError> {
    let mut text = Vec::new(alloc);
    text.extend_from_slice(b"---- MODULE M ----")?;
    for _ in 0..times {
        text.extend_from_slice(mark)?;
    }
    Ok(text)
}

#[test]
fn reads_long_texts(rt: HostRuntime) -> Result<(), Fail> {
    for &(mark, times, code, line, column) in &LONG {
        let text = repeated(rt.alloc(), mark.as_bytes(), times)?;
        let refusal = LexError::at(code, Place { line, column });
        let error = tokens(rt.alloc(), &text).err();
        assert!(rt; error == Some(refusal), "{line}, {column}");
    }
    Ok(())
}
