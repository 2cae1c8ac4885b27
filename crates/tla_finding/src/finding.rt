//! The explanation of a refusal.

use std::alloc::Global;
use tla_config::Source;
use tla_lex::Place;
use tla_page::output::Output;
use tla_page::places::{Sources, core_place};

/// A second place to show, and the text about it.
#[derive(Drop)]
pub struct Beside {
    pub source: Source,
    pub place: Place,
    pub title: Output,
}

/// Where an explanation points, what is wrong there, another place that has to do with it, and hints.
#[derive(Drop)]
pub struct Finding {
    pub place: Place,
    pub title: Output,
    pub beside: Option<Beside>,
    pub help: Output,
}

impl Finding {
    /// A finding with nothing but a place.
    pub fn at(alloc: Global, place: Place) -> Finding {
        Finding {
            place,
            title: Output::new(alloc, false),
            beside: None,
            help: Output::new(alloc, false),
        }
    }

    pub fn alloc(&self) -> Global {
        self.title.alloc()
    }

    /// Points at a place, and says in these texts what is wrong there.
    pub fn say(&mut self, place: Place, texts: &[&str]) {
        self.place = place;
        self.title.put(texts);
    }

    /// Shows another place, with these texts.
    pub fn show_beside(&mut self, source: Source, place: Place, texts: &[&str]) {
        let mut title = Output::new(self.alloc(), false);
        title.put(texts);
        self.beside = Some(Beside {
            source,
            place,
            title,
        });
    }

    /// Adds a hint, of these texts.
    pub fn hint(&mut self, texts: &[&str]) {
        self.help.hint(texts);
    }

    /// Adds a hint, of `texts` and `others`.
    pub fn hint_of(&mut self, texts: &[&str], others: &[&str]) {
        self.help.put_text("hint: ");
        self.help.put(texts);
        self.help.put(others);
        self.help.put_text("\n");
    }

    /// Points at a place, and says what a name there is.
    pub fn say_what(&mut self, place: Place, name: &str, what: &str, rest: &str) {
        self.place = place;
        self.title.put(&["'", name, "' is "]);
        self.title.put_text(what);
        self.title.put_text(rest);
    }

    /// Shows where a name is declared or defined.
    pub fn show_name(&mut self, place: Place, name: &str, how: &str, rest: &str) {
        let mut title = Output::new(self.alloc(), false);
        title.put(&["'", name, "' is "]);
        title.put_text(how);
        title.put_text(rest);
        self.beside = Some(Beside {
            source: Source::Module,
            place,
            title,
        });
    }

    /// Asks whether another word was meant for a name.
    pub fn ask(&mut self, word: &str, name: &str) {
        self.help.put_text("hint: did you mean ");
        self.help.put_text(word);
        self.help.put(&[" for '", name, "'?\n"]);
    }

    /// Records that memory ran out.
    pub fn refuse(&mut self) {
        self.help.refuse();
    }
}

/// Adds another output.
pub fn put_output(output: &mut Output, other: &Output) {
    match other.bytes() {
        Ok(bytes) => output.put_bytes(bytes),
        Err(_) => output.refuse(),
    }
}

/// Adds the other place of a finding, with its line.
pub fn put_beside(output: &mut Output, sources: &Sources<'_>, beside: &Beside) {
    let place = core_place(beside.place);
    output.put_place(sources, beside.source, place);
    put_output(output, &beside.title);
    output.put_text("\n");
    output.show(sources, beside.source, place);
}
