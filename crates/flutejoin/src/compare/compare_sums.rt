//! How two journals differ in the objects of a session together.
ghost use Rattle.std.specs.Prelude.{◌≡◌, ◌≤◌, length};
ghost use Rattle.flutejoin.specs.CompareSums.{no_sums, sums_line, with_row};
ghost use Rattle.flutejoin.specs.Lines.{line};
ghost use Rattle.flutejoin.specs.declared.lines.form.Form.TheVariants.{Plain, Json};

use crate::compare::row_text::{push_json_sides, push_sides};
use crate::gaps::json_texts::push_json_session;
use crate::lines::form::Form;
use crate::lines::text::Text;
use crate::sender::push_source;
use flute_parts::SessionKey;
use flute_streams::{Row, Sides};

/// How many objects of a session two journals have, and how they differ in these.
#[derive(Clone, Copy)]
pub struct CompareSums {
    pub session: SessionKey,
    /// How many objects either has.
    pub objects: u64,
    /// The symbols of these.
    pub symbols: Sides,
    /// The objects of which either has information.
    pub information: Sides,
    /// How many have none.
    pub unknown: u64,
}

impl CompareSums {
    /// The sums of no object.
    pub fn new(session: SessionKey) -> CompareSums
        ensures { result ≡ no_sums session }
    {
        CompareSums {
            session,
            objects: 0,
            symbols: Sides::none(),
            information: Sides::none(),
            unknown: 0,
        }
    }

    /// The sums with one object more, as far as 64 bits go.
    pub fn with(&self, row: &Row) -> CompareSums
        ensures { result ≡ with_row self.now row.now }
    {
        let counted = CompareSums {
            objects: self.objects.saturating_add(1),
            symbols: self.symbols.plus(&row.symbols),
            ..*self
        };
        match row.information {
            Some(side) => CompareSums {
                information: self.information.more(side),
                ..counted
            },
            None => CompareSums {
                unknown: self.unknown.saturating_add(1),
                ..counted
            },
        }
    }

    /// The words of the session's line.
    pub fn text(&self, form: Form) -> Text
        ensures line { line result ≡ sums_line form self.now }
        ensures len { length result ≤ 511 }
    {
        match form {
            Form::Plain => self.plain_text(),
            Form::Json => self.json_text(),
        }
    }

    fn plain_text(&self) -> Text
        ensures line { line result ≡ sums_line Plain self.now }
        ensures len { length result ≤ 511 }
    {
        let mut text = Text::new();
        push_source(&mut text, self.session.sender());
        text.push("session ");
        text.push_number(self.session.tsi());
        text.push_named(" objects ", self.objects);
        push_sides(&mut text, &self.symbols);
        text.push(" information");
        push_sides(&mut text, &self.information);
        text.push_named(" none ", self.unknown);
        text
    }

    fn json_text(&self) -> Text
        ensures line { line result ≡ sums_line Json self.now }
        ensures len { length result ≤ 511 }
    {
        let mut text = Text::new();
        text.push("{");
        push_json_session(&mut text, self.session);
        text.push_named(",\"objects\":", self.objects);
        text.push(",");
        push_json_sides(&mut text, &self.symbols);
        text.push(",\"information\":{");
        push_json_sides(&mut text, &self.information);
        text.push_named(",\"none\":", self.unknown);
        text.push("}}");
        text
    }
}
