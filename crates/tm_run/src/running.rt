ghost use Rattle.std.specs.Prelude.{◌≡◌, ◌≢◌, ℕ, ◌+◌, ◌<◌, ◌↔◌, true, false, None, Some, List, drop};
ghost use Rattle.tm_gen.specs.Generated.{generated_file};
ghost use Rattle.tm_io.specs.Faults.{Rose};
ghost use Rattle.tm_io.specs.Told.{AddsAll};
ghost use Rattle.tm_run.specs.Held.{EachHolds, SomeDoesNot};
ghost use Rattle.tm_run.specs.Files.{IsAccepted};
ghost use Rattle.tm_run.specs.Inputs.{HasInputFault, IsFaultyInput, OfInput, most_read};
ghost use Rattle.tm_run.specs.Outcomes.{IsInputReport, IsRunOn, HasOutcome, WritesFault, WritesOutcome, WritesPrefix, WritesReport};
ghost use Rattle.tm_run.specs.Runs.{Answers, Declines, Did, Finishes};
ghost use Rattle.tm_run.specs.Words.{asked, is_read};
ghost use Rattle.tm_run.specs.declared.words.options.Options.{Options};

use crate::inputs::outcome;
use crate::status::{Status, fault_status};
use crate::stop::Stop;
use crate::words::chosen;
use crate::words::options::Options;
use std::alloc::Global;
use tm_base::Memory;
use tm_gen::generate;
use tm_io::{ReadErr, Sink, SinkErr, Source, read_all, write_all};
use tm_report::{FileFault, fault_line};

const USAGE_LINE: &str =
    "usage: transmute_report [--profile NAME] [--summary] [--generate N] [MODE]\n";

/// Reads questions, answers them and writes the report, as the words ask for it.
///
/// The words are options, each at most once; what each asks for is told in docs/COMMAND.md. With any others
/// the usage line is written and nothing is read. With `--generate` nothing is read either. Else all of the
/// source is read, up to one byte past the most that an input may have: a file, or with `--verify` the text
/// of a refutation and the file behind it. What a question file is, and what is written, is told in
/// docs/QUESTION_FILES.md and docs/REPORT.md.
pub fn run<S: Source, K: Sink>(alloc: Global, words: &[String], src: &mut S, out: &mut K) -> Status
    // The headline: the report on an accepted file is written, in which each question is refused exactly
    // where a type that it reaches is at fault, and else is answered yes exactly where each value of its
    // source, or with `validity` some, fitted, is a value of its target; and what a no shows is true.
    // `IsReport` says it, of the file that was read or generated and of the profile that is asked for. With a
    // mode the text is what the mode says of the file's questions or types, and the clauses below speak of that.
    // With `--verify` the input is the text of a refutation, and the file stands behind it: `AsksOf` says so.
    ensures headline { (options : Options) (input : List ℕ)
        → IsRunOn (asked words.now) (S.left src.old) options input result
        → OfInput IsAccepted options input
        → WritesReport options input result (K.written out.old) (K.written out.new) }
    // No other report is one on the input: it is a function of the input and of what is asked for.
    ensures only_report { (options : Options) (input : List ℕ)
        → IsRunOn (asked words.now) (S.left src.old) options input result
        → (status : Status) (text : List ℕ) → IsInputReport options input status text
        → (status ≡ result) × AddsAll (K.written out.old) (K.written out.new) text }

    // What is written, in each case, and what the status is then.
    ensures outcome { HasOutcome result → WritesOutcome (asked words.now) (S.left src.old) result
        (K.written out.old) (K.written out.new) }
    ensures part { result ≡ Status.WriteFault → WritesPrefix (asked words.now) (S.left src.old)
        (K.written out.old) (K.written out.new) }
    ensures silent_fault { result ≡ Status.ReadFault → K.written out.new ≡ K.written out.old }
    ensures silent_memory { result ≡ Status.Memory → K.written out.new ≡ K.written out.old }

    // An input with a fault gets its line and its status.
    ensures fault { (options : Options) (input : List ℕ)
        → IsRunOn (asked words.now) (S.left src.old) options input result
        → (fault : FileFault) → HasInputFault options input fault
        → WritesFault fault result (K.written out.old) (K.written out.new) }

    // The cause of each status. `OfInput` speaks of the file of which the input asks, and of what is asked. A
    // file that `EachHolds` or `SomeDoesNot` speaks of is accepted; what is to hold is told by `HoldsFor`, and of
    // which questions by `questions_for`, for the mode.
    ensures all_yes { (options : Options) (input : List ℕ)
        → IsRunOn (asked words.now) (S.left src.old) options input result
        → (result ≡ Status.AllYes ↔ OfInput EachHolds options input) }
    ensures mixed { (options : Options) (input : List ℕ)
        → IsRunOn (asked words.now) (S.left src.old) options input result
        → (result ≡ Status.Mixed ↔ OfInput SomeDoesNot options input) }
    ensures usage { HasOutcome result → (result ≡ Status.Usage ↔ asked words.now ≡ None) }
    ensures bad_text { (options : Options) (input : List ℕ)
        → IsRunOn (asked words.now) (S.left src.old) options input result
        → (result ≡ Status.BadText ↔ IsFaultyInput options input Status.BadText) }
    ensures limit { (options : Options) (input : List ℕ)
        → IsRunOn (asked words.now) (S.left src.old) options input result
        → (result ≡ Status.Limit ↔ IsFaultyInput options input Status.Limit) }
    ensures ill_formed { (options : Options) (input : List ℕ)
        → IsRunOn (asked words.now) (S.left src.old) options input result
        → (result ≡ Status.IllFormed ↔ IsFaultyInput options input Status.IllFormed) }
    ensures no_question { (options : Options) (input : List ℕ)
        → IsRunOn (asked words.now) (S.left src.old) options input result
        → (result ≡ Status.NoQuestion ↔ IsFaultyInput options input Status.NoQuestion) }
    ensures read_fault { result ≡ Status.ReadFault → Rose (S.faults src.old) (S.faults src.new) }
    ensures read_risen { S.faults src.old < S.faults src.new → result ≡ Status.ReadFault }
    ensures write_fault { result ≡ Status.WriteFault → Rose (K.faults out.old) (K.faults out.new) }
    ensures write_risen { K.faults out.old < K.faults out.new → result ≡ Status.WriteFault }

    // What is left of the source. It isn't read where the words aren't in form or a file is generated.
    ensures unread { is_read (asked words.now) ≡ false
        → (S.left src.new ≡ S.left src.old) × (S.faults src.new ≡ S.faults src.old) }
    ensures taken { (input : List ℕ) → is_read (asked words.now) ≡ true → S.left src.old
        ≡ Some input
        → result ≢ Status.ReadFault → result ≢ Status.Memory
        → S.left src.new ≡ Some (drop (most_read (asked words.now) + 1) input) }
{
    done(alloc, words, src, out)
}

/// The run, with what it did.
fn done<S: Source, K: Sink>(alloc: Global, words: &[String], src: &mut S, out: &mut K) -> Status
    ensures { Did (asked words.now) (S.left src.old) (S.left src.new) (S.faults src.old)
        (S.faults src.new) (K.written out.old) (K.written out.new) (K.faults out.old)
        (K.faults out.new) result }
{
    match chosen(alloc, words) {
        Ok(None) => finish(out, USAGE_LINE, Status::Usage),
        Ok(Some(options)) => answer_asked(alloc, &options, src, out),
        Err(Memory) => Status::Memory,
    }
}

/// Writes the report on the input that is asked for, or the line that says why it gets none.
fn answer_asked<S: Source, K: Sink>(
    alloc: Global,
    options: &Options,
    src: &mut S,
    out: &mut K,
) -> Status
    ensures { Did (Some options.now) (S.left src.old) (S.left src.new) (S.faults src.old)
        (S.faults src.new) (K.written out.old) (K.written out.new) (K.faults out.old)
        (K.faults out.new) result }
{
    match options.generate {
        Some(number) => answer_generated(alloc, options, number, out),
        None => answer_read(alloc, options, src, out),
    }
}

/// Reads an input and writes the report on it, or the line that says why it gets none.
fn answer_read<S: Source, K: Sink>(
    alloc: Global,
    options: &Options,
    src: &mut S,
    out: &mut K,
) -> Status
    requires { options.now.generate ≡ None }
    ensures { Did (Some options.now) (S.left src.old) (S.left src.new) (S.faults src.old)
        (S.faults src.new) (K.written out.old) (K.written out.new) (K.faults out.old)
        (K.faults out.new) result }
{
    let limit = options.input_limit();
    match read_all(alloc, src, limit.number()) {
        Ok(input) => answer(alloc, options, &input, out),
        Err(ReadErr::Fault) => Status::ReadFault,
        Err(ReadErr::TooLong) => decline(alloc, FileFault::Passed(limit, None), out),
        Err(ReadErr::Memory) => Status::Memory,
    }
}

/// Writes the report on the file of a number, or the line that says why it gets none.
fn answer_generated<K: Sink>(alloc: Global, options: &Options, number: u64, out: &mut K) -> Status
    ensures { Answers (K.written out.old) (K.written out.new) (K.faults out.old) (K.faults out.new)
        options.now (generated_file number) result }
{
    match generate(alloc, number) {
        Ok(file) => answer(alloc, options, &file, out),
        Err(_) => Status::Memory,
    }
}

/// Writes the report on an input, or the line that says why it gets none.
fn answer<K: Sink>(alloc: Global, options: &Options, input: &[u8], out: &mut K) -> Status
    ensures { Answers (K.written out.old) (K.written out.new) (K.faults out.old) (K.faults out.new)
        options.now input.now result }
{
    match outcome(alloc, options, input) {
        Ok((status, text)) => finish(out, text.as_str(), status),
        Err(Stop::Fault(fault)) => decline(alloc, fault, out),
        Err(Stop::Memory) => Status::Memory,
    }
}

/// Writes the line of a fault.
fn decline<K: Sink>(alloc: Global, fault: FileFault, out: &mut K) -> Status
    ensures { Declines (K.written out.old) (K.written out.new) (K.faults out.old) (K.faults out.new)
        fault result }
{
    match fault_line(alloc, &fault) {
        Ok(line) => finish(out, line.as_str(), fault_status(fault)),
        Err(_) => Status::Memory,
    }
}

/// Writes a text, and says how the run ended.
fn finish<K: Sink>(out: &mut K, text: &str, status: Status) -> Status
    ensures { Finishes (K.written out.old) (K.written out.new) (K.faults out.old) (K.faults out.new)
        status text.now result }
{
    match write_all(out, text.as_bytes()) {
        Ok(()) => status,
        Err(SinkErr::Fault) => Status::WriteFault,
    }
}
