ghost use Rattle.std.specs.Prelude.{◌≡◌, ◌↔◌, ℕ, List, IfSome};
ghost use Rattle.tg_io.specs.Faults.{Rose};
ghost use Rattle.tg_io.specs.Whole.{written_of};
ghost use Rattle.tg_types.specs.declared.options.Settings.{Settings};
ghost use Rattle.tg_cmd.specs.Requests.{Request, generate, judge, simulate, check, ReadsWords, IsCommand};
ghost use Rattle.tg_cmd.specs.Output.{HasBytes, Completes, IsResult, IsSilent, IsWriteFault, IsWritten};
ghost use Rattle.tg_cmd.specs.Promises.{PrintsTheorem, PrintsHeadline, PrintsOutcomes, PrintsChecked};

use crate::answer::{Answer, Ending};
use crate::output::make_output;
use crate::request::request_of;
use std::alloc::Global;
use tg_io::{Sink, Source, WriteErr, write_all};
use tg_types::Name;

/// One run of the program: reads what `source` gives, a theory, for `judge` with recorded outcomes behind it and for `check`
/// with a certificate, and writes the result to `sink`: for `generate` and `judge` the report, for `harness` the script that
/// runs a program on the tests, for `simulate` with a name the outcomes where the function of that name stands in as the
/// program, and for `check` the sequent that the certificate proves. The words behind, of which `check` has none, are options,
/// each at most once: `--depth` 1 to 8, `--bound` to 20,000, `--seed` below 2^64, `--tries` to 100,000 and `--width` 1 to 32,
/// with a number behind it.
///
/// `Usage` comes exactly where the words aren't such words, and then nothing is read or written.
/// `ReadFault` comes only where the source's count of faults rose in this call, `WriteFault` only where the
/// sink's did. `Limit(Input)` comes exactly where the input is longer than 16,777,216 bytes. Else the first
/// fault of its tokens is answered, as `Limit(Number)` where it is a number of 2^64 or more, and as
/// `Refused(Form)` where it is another; else `Limit(Nesting)` where the tokens nest too deep; else
/// `Refused(Form)` where they are no text of the grammar; else the first fault of the theory's declarations;
/// else the first limit that is passed in making the classes, of which `check` makes none; else, for `judge`,
/// `Refused(Settings)` where the outcomes state other settings, or the fault of the first record that has one, as
/// `Refused(Unknown)`, `Refused(Repeated)` or `Refused(BadAnswer)`, for `simulate` `Refused(StandIn)` where no
/// function of the name has the program's type, and for `check` `Refused(Certificate)` with the first line that
/// bears another number than its place or is no instance of its rule on earlier lines, or with 0 where there is no
/// line. At each of these one line is written. Else the result is written, and the answer is `TestsFailed` exactly
/// where `judge` gives the verdict `failed`, else `Done`. The whole input is read before anything is written.
/// `Memory` may come in place of any result before that, and then neither count of faults rose.
///
/// The theorem that is printed has a derivation by the rules of the calculus and is true on every table, and
/// each uniformity, open class and regularity that is printed is true on every table where the specification
/// is. Where `judge` has answered `Done` or `TestsFailed`, the specification holds on every finite table that
/// has the outcomes that are judged passed and on which these hypotheses hold, and an outcome that is judged
/// failed refutes it. (HOL-TestGen's test theorem, after Brucker and Wolff.)
///
/// Where `simulate` has answered `Done`, what it wrote is read by `judge` with the same settings, on a line of its own behind the
/// theory, as just what the function answers that stands in: nothing is refused. Only a limit, `Input` or `Nesting`, can be passed
/// by both together.
///
/// Where `check` has answered `Done`, the sequent that is printed has a derivation by the rules of the calculus and is true at
/// all values of its variables on every table, whoever wrote the certificate.
pub fn run<S: Source, K: Sink>(
    alloc: Global,
    words: &[Name],
    source: &mut S,
    sink: &mut K,
) -> Answer
    ensures usage { (result ≡ Answer.Usage) ↔ ¬ (IsCommand words.now) }
    ensures unread { result ≡ Answer.Usage → source.new ≡ source.old }
    ensures read_fault { result ≡ Answer.ReadFault → Rose (S.faults source.old) (S.faults source.new) }
    ensures write_fault { IsWriteFault result → Rose (K.faults sink.old) (K.faults sink.new) }
    ensures memory { result ≡ Answer.Memory → (S.faults source.new ≡ S.faults source.old) × (K.faults sink.new ≡ K.faults sink.old) }
    ensures silent { IsSilent result → sink.new ≡ sink.old }
    ensures complete { (r : Request) → ReadsWords words.now r → IfSome (S.left source.old) (λ input. Completes r input result) }
    ensures theorem { (s : Settings) → ReadsWords words.now (generate s) → result ≡ Answer.Done → IsWritten (PrintsTheorem s) (S.left source.old) (K.written sink.old) (K.written sink.new) }
    ensures headline { (s : Settings) → ReadsWords words.now (judge s) → IsResult result → IsWritten (PrintsHeadline s) (S.left source.old) (K.written sink.old) (K.written sink.new) }
    ensures simulated { (name : List ℕ) → (s : Settings) → ReadsWords words.now (simulate name s) → result ≡ Answer.Done → IsWritten (PrintsOutcomes name s) (S.left source.old) (K.written sink.old) (K.written sink.new) }
    ensures checked { ReadsWords words.now check → result ≡ Answer.Done → IsWritten PrintsChecked (S.left source.old) (K.written sink.old) (K.written sink.new) }
    ensures bytes { (r : Request) → ReadsWords words.now r → HasBytes r result (S.left source.old) (S.left source.new) (K.written sink.old) (K.written sink.new) }
{
    let request = match request_of(words) {
        Some(request) => request,
        None => return Answer::Usage,
    };
    let output = match make_output(alloc, &request, source) {
        Ok(output) => output,
        Err(answer) => return answer,
    };
    match write_all(sink, output.text.as_slice()) {
        Ok(()) => match output.ending {
            Ending::Done => Answer::Done,
            Ending::TestsFailed => Answer::TestsFailed,
            Ending::Refused(refusal) => Answer::Refused(refusal),
            Ending::Limit(name) => Answer::Limit(name),
        },
        Err(error) => write_fault(error),
    }
}

fn write_fault(error: WriteErr) -> Answer
    ensures { result ≡ Answer.WriteFault (written_of error) }
{
    match error {
        WriteErr::Fault { written } => Answer::WriteFault { written },
    }
}
