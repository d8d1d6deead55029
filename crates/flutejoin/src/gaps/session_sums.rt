//! How much is held of the objects of a session together.
ghost use Rattle.std.specs.Prelude.{◌≡◌, ◌≤◌, ◌+◌, length, ℕ};
ghost use Rattle.flutejoin.specs.Lines.{line};
ghost use Rattle.flutejoin.specs.Sums.{AddsObject, AreWithin, CanAddObject, IsNone, sums_line};
ghost use Rattle.flutejoin.specs.declared.lines.form.Form.TheVariants.{Plain, Json};

use crate::gaps::json_texts::push_json_session;
use crate::lines::form::Form;
use crate::lines::text::Text;
use crate::sender::push_source;
use flute_parts::SessionKey;
use flute_store::Status;

/// How many objects of a session are listed, and how much is held of them. Sums of 128 bits hold
/// those of all objects that a journal can have.
#[derive(Drop)]
pub struct SessionSums {
    pub session: SessionKey,
    /// How many objects are listed.
    pub objects: u128,
    /// How many of them are whole.
    pub whole: u128,
    /// How many have one information, and some symbols that are wanted.
    pub partial: u128,
    /// How many of the wanted symbols of these are not held.
    pub missing: u128,
    /// How many symbols of all of them have two values.
    pub conflicting: u128,
    /// How many of those that are wanted have one value, of a length that does not fit.
    pub misfit: u128,
    /// How many of the objects have no information, or two values of it.
    pub unknown: u128,
}

impl SessionSums {
    /// The sums of no object.
    pub fn new(session: SessionKey) -> SessionSums
        ensures none { IsNone session result }
        ensures within { AreWithin 0 result }
    {
        SessionSums {
            session,
            objects: 0,
            whole: 0,
            partial: 0,
            missing: 0,
            conflicting: 0,
            misfit: 0,
            unknown: 0,
        }
    }

    /// Adds an object of which so much is held, and so many symbols in conflict.
    pub fn add(&mut self, status: Status, conflicts: u64)
        requires { CanAddObject self.old }
        ensures added { AddsObject status conflicts self.old self.new }
        ensures within { (n : ℕ) → AreWithin n self.old → AreWithin (n + 1) self.new }
    {
        self.objects += 1;
        self.conflicting += u128::from(conflicts);
        match status {
            Status::Whole { .. } => self.whole += 1,
            Status::Partial {
                missing,
                misfit,
                ..
            } => {
                self.partial += 1;
                self.missing += u128::from(missing);
                self.misfit += u128::from(misfit);
            }
            Status::NoInformation | Status::ConflictingInformation => self.unknown += 1,
        }
    }

    /// The words of the session's line.
    pub fn text(&self, form: Form) -> Text
        ensures line { line result ≡ sums_line form self.now }
        ensures len { length result ≤ 511 }
    {
        match form {
            Form::Plain => self.plain_text(),
            Form::Json => self.json_text(),
        }
    }

    fn plain_text(&self) -> Text
        ensures line { line result ≡ sums_line Plain self.now }
        ensures len { length result ≤ 511 }
    {
        let mut text = Text::new();
        push_source(&mut text, self.session.sender());
        text.push("session ");
        text.push_number(self.session.tsi());
        text.push(" objects ");
        text.push_number(self.objects);
        text.push(" whole ");
        text.push_number(self.whole);
        text.push(" partial ");
        text.push_number(self.partial);
        text.push(" missing ");
        text.push_number(self.missing);
        text.push(" conflicting ");
        text.push_number(self.conflicting);
        text.push(" misfit ");
        text.push_number(self.misfit);
        text.push(" unknown ");
        text.push_number(self.unknown);
        text
    }

    fn json_text(&self) -> Text
        ensures line { line result ≡ sums_line Json self.now }
        ensures len { length result ≤ 511 }
    {
        let mut text = Text::new();
        text.push("{");
        push_json_session(&mut text, self.session);
        text.push(",\"objects\":");
        text.push_number(self.objects);
        text.push(",\"whole\":");
        text.push_number(self.whole);
        text.push(",\"partial\":");
        text.push_number(self.partial);
        text.push(",\"missing\":");
        text.push_number(self.missing);
        text.push(",\"conflicting\":");
        text.push_number(self.conflicting);
        text.push(",\"misfit\":");
        text.push_number(self.misfit);
        text.push(",\"unknown\":");
        text.push_number(self.unknown);
        text.push("}");
        text
    }
}
