// Strings inside values.
ghost use Rattle.std.specs.Prelude.{◌≡◌, ◌≤◌, length, string_bytes, take, IfOk, IfErr};
ghost use Rattle.std.specs.Cmp.Lexicographic.{slice_cmp};
ghost use Rattle.std.specs.Ordering.{nat_cmp};
ghost use Rattle.std.specs.Str.{IsUtf8};
ghost use Rattle.tla_value.specs.declared.error.ValueError.TheVariants.{Memory};
ghost use Rattle.tla_value.specs.Private.HeldText.{held_bytes};

use crate::error::ValueError;
use std::alloc::Global;
use std::cmp::Ordering;
use std::marker::Model;
use std::str;
use std::sync::Arc;

// The most bytes of a string that is stored inline.
const MOST: usize = 14;

// A short string: the first `len` of these bytes.
#[derive(Clone, Copy, Debug)]
struct Short {
    bytes: [u8; 14],
    len: u8,
}

// A short string is stored inline, so threads that copy it don't contend for a reference count.
#[derive(Debug, Drop)]
enum Held {
    Short(Short),
    Long(Arc<String>),
}

/// A string; in contracts, its UTF-8 bytes. Copies of a long one share its text.
#[derive(Debug, Drop)]
pub struct Text {
    alloc: Global,
    held: Held,
}

impl Model for Text {
    ghost use Rattle.std.specs.Prelude.{List, ℕ};

    ghost Value = { List ℕ };

    ghost use Rattle.tla_value.specs.Private.HeldText.{held_bytes, FitsHeld};

    ghost view = { λ t. held_bytes t.held };

    ghost use Rattle.std.specs.Cmp.Lexicographic.{slice_cmp};
    ghost use Rattle.std.specs.Ordering.{nat_cmp};
    ghost use Rattle.std.specs.Str.{IsUtf8};

    ghost invariant = { λ t. FitsHeld t.held × ∥ IsUtf8 (held_bytes t.held) ∥₁ };
}

// A short string.
fn short_of(text: &str) -> Short
    requires { length text.now ≤ 14 }
    ensures within { (result.len ≤ 14) × (length result.bytes ≡ 14) }
    ensures bytes { take result.len result.bytes ≡ text.now }
{
    let mut bytes = [0; 14];
    let len = text.len();
    bytes[..len].copy_from_slice(text.as_bytes());
    Short {
        bytes,
        len: len as u8,
    }
}

// The bytes of a short string.
fn short_bytes(short: &Short) -> &[u8]
    requires { (short.now.len ≤ 14) × (length short.now.bytes ≡ 14) }
    ensures { result.now ≡ take short.now.len short.now.bytes }
{
    &short.bytes[..short.len as usize]
}

impl Text {
    /// The text of a string.
    pub fn new(alloc: Global, text: &str) -> Result<Text, ValueError>
        ensures ok { IfOk result (λ t. t ≡ text.now) }
        ensures err { IfErr result (λ e. e ≡ Memory) }
    {
        if text.len() <= MOST {
            return Ok(Text {
                alloc,
                held: Held::Short(short_of(text)),
            });
        }
        let text = String::from_str(alloc, text)?;
        Ok(Text {
            alloc,
            held: Held::Long(Arc::new(alloc, text)?),
        })
    }

    /// The string, which is copied only if it is short or has another owner.
    pub fn into_string(self) -> Result<String, ValueError>
        ensures ok { IfOk result (λ s. string_bytes s ≡ self) }
        ensures err { IfErr result (λ e. e ≡ Memory) }
    {
        let Text { alloc, held } = self;
        match held {
            Held::Short(short) => {
                let text = unsafe { str::from_utf8_unchecked(short_bytes(&short)) };
                Ok(String::from_str(alloc, text)?)
            }
            Held::Long(text) => match Arc::try_unwrap(text) {
                Ok(text) => Ok(text),
                Err(shared) => Ok(String::from_str(alloc, shared.as_str())?),
            },
        }
    }

    /// An equal string. A long one shares this one's text.
    pub fn copy(&self, _alloc: Global) -> Result<Text, ValueError>
        ensures ok { IfOk result (λ t. t ≡ self.now) }
        ensures err { IfErr result (λ e. e ≡ Memory) }
    {
        match &self.held {
            Held::Short(short) => Ok(Text {
                alloc: self.alloc,
                held: Held::Short(*short),
            }),
            Held::Long(text) => Ok(Text {
                alloc: self.alloc,
                held: Held::Long(Arc::try_clone(text)?),
            }),
        }
    }

    pub fn as_str(&self) -> &str
        ensures bytes { result.now ≡ self.now }
        ensures utf8 { ∥ IsUtf8 self.now ∥₁ }
    {
        match &self.held {
            Held::Short(short) => unsafe { str::from_utf8_unchecked(short_bytes(short)) },
            Held::Long(text) => text.as_str(),
        }
    }

    /// Compares two strings byte by byte.
    pub(crate) fn order(&self, other: &Text) -> Ordering
        ensures { result ≡ slice_cmp nat_cmp self.now other.now }
    {
        self.as_str().cmp(&other.as_str())
    }
}
