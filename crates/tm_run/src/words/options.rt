ghost use Rattle.std.specs.Prelude.{◌≡◌, ◌⊎◌};
ghost use Rattle.tm_run.specs.Asking.{number_asked};
ghost use Rattle.tm_run.specs.Inputs.{input_limit, pointer_for, to_verify};
ghost use Rattle.tm_run.specs.Words.{go_together, if_together, profile_for};

use crate::words::bytes::Bytes;
use tm_base::{LimitKind, Profile};
use tm_refute::Refutation;

/// What is asked of a file in place of the report on its questions.
#[derive(Debug, Drop)]
pub enum Mode {
    /// The least assumptions under which each question is answered yes.
    Needs,
    /// Which of the file's own types may be taken as which.
    Matrix,
    /// Whether these bytes are a value of each question's target.
    Bytes(Bytes),
    /// What shows that the answer to the question of this number, from 1, is no.
    Refute(u32),
    /// Whether this refutation of the question of this number, from 1, holds.
    Verify(u32, Refutation),
}

/// What the words of a run ask for.
#[derive(Debug, Drop)]
pub struct Options {
    /// Of the report on a file only the summary line is written.
    pub summary: bool,
    /// No file is read: it is the one that this number determines.
    pub generate: Option<u64>,
    /// The profile that is named, if one is.
    pub profile: Option<Profile>,
    /// What is asked in place of the report, if anything is.
    pub mode: Option<Mode>,
    /// The file stands behind the text of a refutation, which is to be verified.
    pub verify: bool,
}

impl Options {
    /// These options, or `None` where they don't go together.
    pub fn if_together(self) -> Option<Options>
        ensures { result ≡ if_together self }
    {
        if self.go_together() { Some(self) } else { None }
    }

    /// Whether there is one mode at most, and it stands with neither a summary nor a generated file.
    pub fn go_together(&self) -> bool
        ensures { result ≡ go_together self.now }
    {
        let modes = self.mode.is_some() || self.verify;
        (self.mode.is_none() || !self.verify)
            && (!modes || (!self.summary && self.generate.is_none()))
    }

    /// The number of the one question that the mode asks of, if it asks of one.
    pub fn number_asked(&self) -> Option<u32>
        ensures { result ≡ number_asked self.now.mode }
    {
        match &self.mode {
            Some(Mode::Refute(number)) | Some(Mode::Verify(number, _)) => Some(*number),
            None | Some(Mode::Needs) | Some(Mode::Matrix) | Some(Mode::Bytes(_)) => None,
        }
    }

    /// The profile for which files are answered: `le64` where none is named.
    pub fn target(&self) -> Profile
        ensures { result ≡ profile_for self.now }
    {
        self.profile.unwrap_or(Profile::Le64)
    }
    /// How many bytes a reference has: 4 or 8.
    pub fn pointer(&self) -> u32
        ensures size { result ≡ pointer_for self.now }
        ensures two { (result ≡ 4) ⊎ (result ≡ 8) }
    {
        match self.target() {
            Profile::Le64 | Profile::Be64 => 8,
            Profile::Le32 => 4,
        }
    }

    /// The limit on the bytes of an input: a file, or with `verify` a text and the file behind it.
    pub fn input_limit(&self) -> LimitKind
        ensures { result ≡ input_limit self.now }
    {
        if self.verify {
            LimitKind::TextBytes
        } else {
            LimitKind::FileBytes
        }
    }

    /// What is asked of a file behind the text of this refutation of the question of a number, from 1.
    pub fn to_verify(&self, number: u32, x: Refutation) -> Options
        ensures { result ≡ to_verify number x self.now }
    {
        Options {
            summary: self.summary,
            generate: self.generate,
            profile: self.profile,
            mode: Some(Mode::Verify(number, x)),
            verify: self.verify,
        }
    }
}
