ghost use Rattle.std.specs.Prelude.{◌≡◌, ◌⊎◌, ℕ, List, Some};
ghost use Rattle.command_words.specs.Forms.{form_of};
ghost use Rattle.srv_edge.specs.Count.{HasCause};
ghost use Rattle.srv_edge.specs.Reading.{OnlyReads};
ghost use Rattle.file_commands.specs.Drawn.{CompletesGen, RunsGen};
ghost use Rattle.file_commands.specs.Printed.{CompletesPrinting, PrintsFile};
ghost use Rattle.file_commands.specs.Making.{CompletesInit, RunsInit};
ghost use Rattle.file_commands.specs.Run.{AsksDevice, IsEarly, IsOfRun, IsSession, IsUnread, IsUnsent, Writes};
ghost use Rattle.file_commands.specs.Session.{CompletesSession, RunsSession};

use crate::draw::draw;
use crate::init::{NewFile, init};
use crate::session::session;
use crate::show::{Detail, show};
use command_words::{Plan, Usage, Word, plan_of, plans_have_words};
use program_status::Status;
use srv_edge::{Device, Sink, Source};
use std::alloc::Global;
use std::hash::RandomState;

/// Does what the words ask for, and hands the device back. `init` and `session` write to the device;
/// `check` and `dump` read it alone; `gen` runs over a file in memory and does not ask it. `session`
/// makes its buffers and its tables before it reads its input. The keys are those by which names are
/// found in memory.
pub fn run<S: Source, K: Sink, D: Device>(
    alloc: Global,
    keys: RandomState,
    words: &[Word],
    source: &mut S,
    sink: &mut K,
    device: D,
) -> (Status, D)
    // The words are no form of these commands: that yields to want of memory alone.
    ensures usage { result.0 ≡ Status.Usage → ¬ IsOfRun (form_of words.now) }
    ensures no_form { (¬ IsOfRun (form_of words.now))
        → (result.0 ≡ Status.Usage) ⊎ (result.0 ≡ Status.OutOfMemory) }

    // In `session` these bytes came and these went, and they are a session over the file's tables.
    ensures session { (path : List ℕ) → form_of words.now ≡ Some (Plan.Session path)
        → RunsSession D.Device S.Source K.Sink
        device result.1 source.old source.new sink.old sink.new result.0 }
    // In `init` the device gets the new file, and its two lines went.
    ensures init { (path : List ℕ) (block : ℕ) (guid : List ℕ) (signature : ℕ)
        → form_of words.now ≡ Some (Plan.Init path block guid signature)
        → RunsInit D.Device K.Sink block guid signature
        device result.1 sink.old sink.new result.0 }

    // In `check` the two lines went of the commit that the file holds, or that of its first damage.
    ensures check { (path : List ℕ) → form_of words.now ≡ Some (Plan.Check path)
        → PrintsFile D.Device K.Sink Detail.Lines device sink.old sink.new result.0 }
    // In `dump` all of that commit went, or the line of the file's first damage.
    ensures dump { (path : List ℕ) → form_of words.now ≡ Some (Plan.Dump path)
        → PrintsFile D.Device K.Sink Detail.All device sink.old sink.new result.0 }
    // In `gen` the line went of a session that was drawn from the seed, and that no call failed in.
    ensures generated { (units seed : ℕ) → form_of words.now ≡ Some (Plan.Gen units seed)
        → RunsGen K.Sink units seed sink.old sink.new result.0 }
    ensures nothing_read { IsEarly result.0 → IsUnread S.Source source.old source.new }
    ensures nothing_given { IsEarly result.0 → IsUnsent K.Sink sink.old sink.new }
    ensures source_untouched { (¬ IsSession (form_of words.now)) → source.new ≡ source.old }
    ensures device_untouched { (¬ AsksDevice (form_of words.now)) → result.1 ≡ device }
    ensures reads { HasCause (result.0 ≡ Status.ReadFault)
        (S.faults source.old) (S.faults source.new) }
    ensures writes { HasCause (result.0 ≡ Status.WriteFault)
        (K.faults sink.old) (K.faults sink.new) }
    ensures disk { HasCause (result.0 ≡ Status.DiskFault)
        (D.fault_count device) (D.fault_count result.1) }
    // No other command changes the file, and a crash at any moment of it leaves what it might have
    // left at the start.
    ensures only_reads { (¬ Writes (form_of words.now)) → OnlyReads D.Device device result.1 }
    ensures loans { D.loans result.1 ≡ D.loans device }

    // Where nothing fails, the file and the input alone say how a command ends.
    ensures session_completes { (path : List ℕ) → form_of words.now ≡ Some (Plan.Session path)
        → CompletesSession D.Device S.Source K.Sink
        device result.1 source.old source.new sink.old sink.new result.0 }
    ensures init_completes { (path : List ℕ) (block : ℕ) (guid : List ℕ) (signature : ℕ)
        → form_of words.now ≡ Some (Plan.Init path block guid signature)
        → CompletesInit D.Device K.Sink device result.1 sink.old sink.new result.0 }
    ensures check_completes { (path : List ℕ) → form_of words.now ≡ Some (Plan.Check path)
        → CompletesPrinting D.Device K.Sink device result.1 sink.old sink.new result.0 }
    ensures dump_completes { (path : List ℕ) → form_of words.now ≡ Some (Plan.Dump path)
        → CompletesPrinting D.Device K.Sink device result.1 sink.old sink.new result.0 }
    ensures gen_completes { (units seed : ℕ) → form_of words.now ≡ Some (Plan.Gen units seed)
        → CompletesGen K.Sink sink.old sink.new result.0 }
{
    match plan_of(alloc, words) {
        Ok(Plan::Session { .. }) => session(alloc, keys, source, sink, device),
        Ok(
            Plan::Init {
                block,
                guid,
                signature,
                ..
            },
        ) => {
            // The words gave a size that blocks may have.
            plans_have_words();
            let new = NewFile {
                block,
                guid,
                signature,
            };
            init(alloc, keys, new, sink, device)
        }
        Ok(Plan::Check { .. }) => show(alloc, keys, Detail::Lines, sink, device),
        Ok(Plan::Dump { .. }) => show(alloc, keys, Detail::All, sink, device),
        Ok(Plan::Gen { units, seed }) => {
            // The words gave a number of units that a session may have.
            plans_have_words();
            (draw(alloc, keys, units, seed, sink), device)
        }
        // A door is served by another call.
        Ok(Plan::Serve { .. }) => (Status::Usage, device),
        Err(Usage::NotAForm) => (Status::Usage, device),
        Err(Usage::OutOfMemory) => (Status::OutOfMemory, device),
    }
}
