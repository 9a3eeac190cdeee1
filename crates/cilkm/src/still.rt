//! The top call: from the words and standard input to the status and standard output.
ghost use Rattle.std.specs.Prelude.{◌≡◌, ◌≢◌, ℕ, ℤ, ◌≤◌, ◌⊎◌, Bool, Option, None, Some, IfOk, IfSome, length, List};
ghost use Rattle.std.specs.IoError.{error_kind};
ghost use Rattle.cm_syntax.specs.declared.stmt.Program.{Program};
ghost use Rattle.cm_meaning.specs.Ended.{end_of, limits_of};
ghost use Rattle.cm_meaning.specs.Meaning.{SerialEnd};
ghost use Rattle.cm_maps.specs.Pages.{IsPage};
ghost use Rattle.cm_meaning.specs.Range.{HasRanges};
ghost use Rattle.cm_meaning.specs.declared.ended.Ended.{Ended as End};
ghost use Rattle.cm_meaning.specs.declared.ended.Limits.{Limits as LimitsOf};
ghost use Rattle.cilkm.specs.Asked.{texts, AsksOrNot, IsWithin};
ghost use Rattle.cm_gen.specs.declared.form.Form.{Form as FormOf};
ghost use Rattle.cm_gen.specs.declared.form.Form.TheVariants as forms;
ghost use Rattle.cilkm.specs.Built.{max_short_source, IsImageOf, IsLong};
ghost use Rattle.cilkm.specs.Cut.{max_input, IsCut};
ghost use Rattle.cilkm.specs.Pieces.{pieces_behind, HaveValues};
ghost use Rattle.cilkm.specs.Source.{HasAccepted, CompilesAs};
ghost use Rattle.cilkm.specs.declared.command.Command.{Command};
ghost use Rattle.cilkm.specs.declared.command.Command.TheVariants as commands;
ghost use Rattle.cilkm.specs.declared.refusal.Refusal.TheVariants as refusals;
ghost use Rattle.cilkm.specs.declared.verdict.Verdict.{Verdict};
ghost use Rattle.cilkm.specs.declared.verdict.Verdict.TheVariants as verdicts;
ghost use Rattle.cilkm.specs.Verdict.{verdict_text, verdict_of, Means, IsCaused, IsServed, Says, GoesOut, Tells, IsDecided, GoesWell};

use crate::command::{self, Command};
use crate::cut::source_of;
use crate::pieces::{PieceStop, numbers};
use crate::program::{build_source, check_source, compile_source};
use crate::refusal::Stop;
use crate::verdict::Verdict;
use cm_gen::{Build, Form};
use cm_meaning::{Ended, Limits, elide};
use cm_serial::{Served, serial};
use cm_syntax::Checked;
use cm_text::{Memory, ReadEnd, Sink, Source, read_all, write_all};
use std::alloc::Global;
use std::io::{self, ErrorKind};

/// The most bytes of standard input.
const MAX_INPUT: u32 = 4_194_304;

/// Does what the words after the program's name say: reads the source, writes the sink, and gives the
/// status with which the program ends.
pub fn still<I: Source, O: Sink>(alloc: Global, words: &[&str], source: &mut I, sink: &mut O) -> u8
    // Some verdict has its cause, and its text went out: whole, with its status, or a front of it, with status 6.
    ensures answered { (command : Option Command) × (verdict : Verdict) × AsksOrNot (texts words.now) command
        × IsCaused command (I.left source.old) (I.faults source.old) (I.faults source.new) verdict
        × GoesOut verdict result (O.taken sink.old) (O.taken sink.new) (O.faults sink.old) (O.faults sink.new) }

    // Each status but 5, 6 and 7, and its text, is what the words and the input decide.
    ensures exact { IfSome (I.left source.old) (λ input. IsDecided result → (command : Option Command) × (verdict : Verdict)
        × AsksOrNot (texts words.now) command × Means command input verdict × Says verdict result (O.taken sink.old) (O.taken sink.new)) }

    // Of an accepted source `build` prints the listing of its program's image in the form and with the page asked for,
    // exactly where that has at most 200,000 words, and else `refused 0 long`, unless a stream fails or memory runs out.
    ensures build { (form : FormOf) (page : ℕ) (input text : List ℕ) (program : Program)
        → GoesWell (texts words.now) (commands.Build form page) (I.left source.old) input text program
        (I.faults source.old) (I.faults source.new) (O.faults sink.old) (O.faults sink.new)
        → ((image : List ℕ) × IsImageOf program form page image × Says (verdicts.Listing image) result (O.taken sink.old) (O.taken sink.new))
        ⊎ (IsLong program form page × Says (verdicts.Refused 0 refusals.Long) result (O.taken sink.old) (O.taken sink.new))
        ⊎ Says verdicts.Memory result (O.taken sink.old) (O.taken sink.new) }

    // The image of a source of at most 8,192 bytes is never too long.
    ensures short_sources_are_built { (form : FormOf) (page : ℕ) (input text : List ℕ) (program : Program)
        → GoesWell (texts words.now) (commands.Build form page) (I.left source.old) input text program
        (I.faults source.old) (I.faults source.new) (O.faults sink.old) (O.faults sink.new)
        → length text ≤ max_short_source
        → ((image : List ℕ) × IsImageOf program form page image × Says (verdicts.Listing image) result (O.taken sink.old) (O.taken sink.new))
        ⊎ Says verdicts.Memory result (O.taken sink.old) (O.taken sink.new) }

    // Of an accepted source with numbers behind it `serial` prints the end of the serial elision, and with `stat=1` the
    // number of steps behind it, exactly where its image in the serial form has at most 200,000 words, and else
    // `refused 0 long`, unless a stream fails or memory runs out.
    ensures serial { (limits : LimitsOf) (stat : Bool) (input text : List ℕ) (program : Program) (numbers : List ℤ)
        → GoesWell (texts words.now) (commands.Serial limits stat) (I.left source.old) input text program
        (I.faults source.old) (I.faults source.new) (O.faults sink.old) (O.faults sink.new)
        → HaveValues (pieces_behind input text) numbers
        → ((said : Verdict) × IsServed stat program numbers limits said × Says said result (O.taken sink.old) (O.taken sink.new))
        ⊎ (IsLong program forms.Serial limits.page × Says (verdicts.Refused 0 refusals.Long) result (O.taken sink.old) (O.taken sink.new))
        ⊎ Says verdicts.Memory result (O.taken sink.old) (O.taken sink.new) }

    // The image of a source of at most 8,192 bytes is never too long.
    ensures short_sources_are_run { (limits : LimitsOf) (stat : Bool) (input text : List ℕ) (program : Program) (numbers : List ℤ)
        → GoesWell (texts words.now) (commands.Serial limits stat) (I.left source.old) input text program
        (I.faults source.old) (I.faults source.new) (O.faults sink.old) (O.faults sink.new)
        → HaveValues (pieces_behind input text) numbers → length text ≤ max_short_source
        → ((said : Verdict) × IsServed stat program numbers limits said × Says said result (O.taken sink.old) (O.taken sink.new))
        ⊎ Says verdicts.Memory result (O.taken sink.old) (O.taken sink.new) }

    // Of an accepted source with numbers behind it `mean` prints the end of the serial elision, unless a stream fails or
    // memory runs out.
    ensures mean { (limits : LimitsOf) (input text : List ℕ) (program : Program) (numbers : List ℤ)
        → GoesWell (texts words.now) (commands.Mean limits) (I.left source.old) input text program
        (I.faults source.old) (I.faults source.new) (O.faults sink.old) (O.faults sink.new)
        → HaveValues (pieces_behind input text) numbers
        → ((end : End) × SerialEnd program numbers (limits_of limits) (end_of end) × Says (verdicts.Ended end) result (O.taken sink.old) (O.taken sink.new))
        ⊎ Says verdicts.Memory result (O.taken sink.old) (O.taken sink.new) }

    // Wrong words are answered before standard input is read: the source is what it was.
    ensures wrong_words_read_nothing { AsksOrNot (texts words.now) None → source.new ≡ source.old }

    ensures source_kept { I.faults source.old ≤ I.faults source.new }
    ensures sink_kept { O.faults sink.old ≤ O.faults sink.new }
{
    let verdict = judge(alloc, words, source);
    tell(alloc, verdict, sink)
}

/// Answers in place of `still` where the words can't be had, by the error that says why: `memory` for want
/// of memory, and else `usage`, since some word is no text.
pub fn refuse_words<O: Sink>(alloc: Global, error: &io::Error, sink: &mut O) -> u8
    ensures memory { error_kind error.now ≡ ErrorKind.OutOfMemory
        → Tells verdicts.Memory result (O.taken sink.old) (O.taken sink.new) (O.faults sink.old) (O.faults sink.new) }
    ensures usage { error_kind error.now ≢ ErrorKind.OutOfMemory
        → Tells verdicts.Usage result (O.taken sink.old) (O.taken sink.new) (O.faults sink.old) (O.faults sink.new) }
{
    match error.kind() {
        ErrorKind::OutOfMemory => tell(alloc, Verdict::Memory, sink),
        _ => tell(alloc, Verdict::Usage, sink),
    }
}

/// What the words come to.
fn judge<I: Source>(alloc: Global, words: &[&str], source: &mut I) -> Verdict
    ensures cause { (command : Option Command) × AsksOrNot (texts words.now) command
        × IsCaused command (I.left source.old) (I.faults source.old) (I.faults source.new) result }
    ensures unread { AsksOrNot (texts words.now) None → source.new ≡ source.old }
    ensures kept { I.faults source.old ≤ I.faults source.new }
{
    match command::parse(words) {
        None => Verdict::Usage,
        Some(command) => match source_verdict(alloc, command, source) {
            Ok(verdict) => verdict,
            Err(Memory) => Verdict::Memory,
        },
    }
}

/// What a command comes to with standard input.
fn source_verdict<I: Source>(
    alloc: Global,
    command: Command,
    source: &mut I,
) -> Result<Verdict, Memory>
    requires { IsWithin command }
    ensures cause { IfOk result (IsCaused (Some command) (I.left source.old) (I.faults source.old) (I.faults source.new)) }
    ensures kept { I.faults source.old ≤ I.faults source.new }
{
    let bytes = match read_all(alloc, source, MAX_INPUT) {
        Ok(bytes) => bytes,
        Err(ReadEnd::Fault) => return Ok(Verdict::Read),
        Err(ReadEnd::Long { .. }) => return Ok(Verdict::Long),
        Err(ReadEnd::Memory) => return Err(Memory),
    };
    let verdict = input_verdict(alloc, command, bytes.items())?;
    Ok(verdict)
}

/// What a command comes to with the bytes of standard input.
fn input_verdict(alloc: Global, command: Command, input: &[u8]) -> Result<Verdict, Memory>
    requires short { length input.now ≤ max_input }
    requires within { IsWithin command }
    ensures { IfOk result (Means (Some command) input.now) }
{
    match command {
        Command::Check => check_verdict(alloc, input),
        Command::Build { form, page } => build_verdict(alloc, form, page, input),
        Command::Serial { limits, stat } => serial_verdict(alloc, &limits, stat, input),
        Command::Mean(limits) => mean_verdict(alloc, &limits, input),
    }
}

/// What `check` comes to: the source of standard input is checked.
fn check_verdict(alloc: Global, input: &[u8]) -> Result<Verdict, Memory>
    requires { length input.now ≤ max_input }
    ensures { IfOk result (Means (Some commands.Check) input.now) }
{
    match check_source(alloc, source_of(input)) {
        Ok(_) => Ok(Verdict::Accepted),
        Err(Stop::Refused(at, refusal)) => Ok(Verdict::Refused(at, refusal)),
        Err(Stop::Memory) => Err(Memory),
    }
}

/// What `build` comes to: the source of standard input is compiled.
fn build_verdict(alloc: Global, form: Form, page: u32, input: &[u8]) -> Result<Verdict, Memory>
    requires short { length input.now ≤ max_input }
    requires page { IsPage page }
    ensures { IfOk result (Means (Some (commands.Build form page)) input.now) }
{
    match build_source(alloc, source_of(input), form, page) {
        Ok(image) => Ok(Verdict::Listing(image)),
        Err(Stop::Refused(at, refusal)) => Ok(Verdict::Refused(at, refusal)),
        Err(Stop::Memory) => Err(Memory),
    }
}

/// What `serial` comes to: the source of standard input is compiled, and run with the numbers behind it.
fn serial_verdict(
    alloc: Global,
    limits: &Limits,
    stat: bool,
    input: &[u8],
) -> Result<Verdict, Memory>
    requires short { length input.now ≤ max_input }
    requires within { HasRanges (limits_of limits.now) }
    ensures { IfOk result (Means (Some (commands.Serial limits.now stat)) input.now) }
{
    let source = source_of(input);
    match compile_source(alloc, source, Form::Serial, limits.page) {
        Ok(build) => run_verdict(alloc, limits, stat, input, source, &build),
        Err(Stop::Refused(at, refusal)) => Ok(Verdict::Refused(at, refusal)),
        Err(Stop::Memory) => Err(Memory),
    }
}

/// What `serial` comes to with the build of an accepted source.
fn run_verdict(
    alloc: Global,
    limits: &Limits,
    stat: bool,
    input: &[u8],
    source: &[u8],
    build: &Build,
) -> Result<Verdict, Memory>
    requires short { length input.now ≤ max_input }
    requires within { HasRanges (limits_of limits.now) }
    requires cut { IsCut input.now source.now }
    requires compiled { CompilesAs source.now forms.Serial limits.now.page build.now }
    ensures { IfOk result (Means (Some (commands.Serial limits.now stat)) input.now) }
{
    match numbers(alloc, input, source.len() + 2) {
        Ok(numbers) => {
            let Served { ended, steps } = serial(alloc, build, numbers.items(), limits)?;
            Ok(served_verdict(stat, ended, steps))
        }
        Err(PieceStop::Piece { at }) => Ok(Verdict::Input(at)),
        Err(PieceStop::Memory) => Err(Memory),
    }
}

/// What is said of a run: its end, and the number of its steps where that is asked for.
fn served_verdict(stat: bool, ended: Ended, steps: u64) -> Verdict
    ensures { result ≡ verdict_of stat ended steps }
{
    if stat {
        Verdict::Counted(ended, steps)
    } else {
        Verdict::Ended(ended)
    }
}

/// What `mean` comes to: the source of standard input is checked, and its elision with the numbers behind it is evaluated.
fn mean_verdict(alloc: Global, limits: &Limits, input: &[u8]) -> Result<Verdict, Memory>
    requires short { length input.now ≤ max_input }
    requires within { HasRanges (limits_of limits.now) }
    ensures { IfOk result (Means (Some (commands.Mean limits.now)) input.now) }
{
    let source = source_of(input);
    match check_source(alloc, source) {
        Ok(program) => elision_verdict(alloc, limits, input, source, &program),
        Err(Stop::Refused(at, refusal)) => Ok(Verdict::Refused(at, refusal)),
        Err(Stop::Memory) => Err(Memory),
    }
}

/// What `mean` comes to with an accepted source.
fn elision_verdict(
    alloc: Global,
    limits: &Limits,
    input: &[u8],
    source: &[u8],
    program: &Checked,
) -> Result<Verdict, Memory>
    requires short { length input.now ≤ max_input }
    requires within { HasRanges (limits_of limits.now) }
    requires cut { IsCut input.now source.now }
    requires accepted { HasAccepted source.now program.now }
    ensures { IfOk result (Means (Some (commands.Mean limits.now)) input.now) }
{
    match numbers(alloc, input, source.len() + 2) {
        Ok(numbers) => {
            let ended = elide(alloc, program, numbers.items(), limits)?;
            Ok(Verdict::Ended(ended))
        }
        Err(PieceStop::Piece { at }) => Ok(Verdict::Input(at)),
        Err(PieceStop::Memory) => Err(Memory),
    }
}

/// Writes the verdict's text, or that of want of memory, and gives the status.
fn tell<O: Sink>(alloc: Global, verdict: Verdict, sink: &mut O) -> u8
    ensures told { Tells verdict result (O.taken sink.old) (O.taken sink.new) (O.faults sink.old) (O.faults sink.new) }
    ensures kept { O.faults sink.old ≤ O.faults sink.new }
{
    match verdict.text(alloc) {
        Ok(text) => say(&verdict, text.items(), sink),
        Err(_) => say(&Verdict::Memory, b"memory\n", sink),
    }
}

/// Writes a verdict's text, and gives the status: 6 where the sink failed.
fn say<O: Sink>(verdict: &Verdict, text: &[u8], sink: &mut O) -> u8
    requires { text.now ≡ verdict_text verdict.now }
    ensures said { GoesOut verdict.now result (O.taken sink.old) (O.taken sink.new) (O.faults sink.old) (O.faults sink.new) }
    ensures kept { O.faults sink.old ≤ O.faults sink.new }
{
    match write_all(sink, text) {
        Ok(()) => verdict.status(),
        Err(_) => 6,
    }
}
