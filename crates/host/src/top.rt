// The top call.
ghost use Rattle.std.specs.Prelude.{◌≡◌, ◌≢◌, ◌≤◌, ◌↔◌, true, None, Err, length, IfOk, IfErr};
ghost use Rattle.host_text.specs.Refusals.{status_of};
ghost use Rattle.whole_run.specs.Shelf.{seen_of as shelf_seen};
ghost use Rattle.host.specs.Answer.{Changes, Decides, IsFair, RanOrMemory, Refuses, Runs, Tells, all_exit, cause_of, is_exit, is_refusal, no_lists};
ghost use Rattle.host.specs.Outcome.{answers_of, outcome, IsSteady};
ghost use Rattle.host.specs.Seen.{seen_of, source_of};
ghost use Rattle.host.specs.Words.{order_of};

use crate::ended::Ended;
use crate::prepare::prepare;
use crate::run::{Told, run};
use guest_loop::GuestEnd;
use host_text::{Cause, print, refuse, status_of};
use journal_text::first_fault;
use outside::{Files, Sink};
use plain_machine::End;
use shelf_model::Shelf;
use std::alloc::Global;

/// Does what the words ask: `run FILE` reads the manifest FILE, its files and the inputs of its guests, loads the units of the
/// run from the shelf, runs the guests by rising round and in order within a round, publishes what is due, and writes the text
/// of the run to the sink. Of the options behind FILE `--counts` adds the line of each guest's counts and `--journal` the lines
/// of the journal. It takes at most 1,048,576 bytes of FILE and of an input, and 4,194,304 of a file. The first failure in this
/// order is the answer: the words; FILE; its text; the files in order, then the inputs; each ELF file in order; more than 64
/// slots. A fault of the shelf shuts its slot, and the run goes on. `Cause::Memory` may come at any time, and then nothing was
/// written. A refusal writes one line; where that fails, the status stays.
pub fn host<F: Files, H: Shelf, K: Sink>(
    alloc: Global,
    words: &[String],
    files: &mut F,
    shelf: &mut H,
    out: &mut K,
) -> Ended
    ensures status { result.status ≡ status_of result.cause }
    // What each answer says of the words, the files, the shelf and the sink.
    ensures told { Tells words.now (seen_of K.written K.faults (source_of F.content F.faults files.old files.new) (shelf_seen H.told H.faults shelf.old shelf.new) out.old out.new) result.cause result.lists }

    // Just the words that are not `run FILE` with options are refused as words.
    ensures words { (result.cause ≡ Cause.Words) ↔ (order_of words.now ≡ None) }
    // Where the files tell all, what they hold decides which failure comes, or that the guests are run.
    ensures decided { IsSteady (F.content files.old) result.cause → Decides (outcome words.now (answers_of (F.content files.old))) result.cause }
    // Whatever it answers, the shelf is changed by publications of the run's slots alone. Before a refusal it is not called.
    ensures areas { Changes words.now (source_of F.content F.faults files.old files.new) (H.told shelf.old) (H.told shelf.new) }
    ensures uncalled { is_refusal result.cause ≡ true → shelf.new ≡ shelf.old }

    // It does not give up by itself.
    ensures complete { IsFair words.now (seen_of K.written K.faults (source_of F.content F.faults files.old files.new) (shelf_seen H.told H.faults shelf.old shelf.new) out.old out.new)
        → RanOrMemory result.status }
{
    match work(alloc, words, files, shelf) {
        Ok((text, told)) => match print(out, &text) {
            Ok(()) => ended(cause_of(&told), told),
            Err(_) => ended(Cause::Sink, told),
        },
        Err(cause) => {
            // The status stays, also where the line is not taken.
            let _ = refuse(out, &cause);
            ended(cause, nothing(alloc))
        }
    }
}

// Reads, runs, and makes the text.
fn work<F: Files, H: Shelf>(
    alloc: Global,
    words: &[String],
    files: &mut F,
    shelf: &mut H,
) -> Result<(Vec<u8>, Told), Cause>
    ensures done { IfOk result (λ both. Runs words.now (source_of F.content F.faults files.old files.new) (shelf_seen H.told H.faults shelf.old shelf.new) both.1 both.0.items) }
    ensures few { IfOk result (λ both. length both.1.loads ≤ 64) }
    ensures refused { IfErr result (λ cause. cause ≢ Cause.Memory → Refuses words.now (source_of F.content F.faults files.old files.new) cause) }
    ensures areas { Changes words.now (source_of F.content F.faults files.old files.new) (H.told shelf.old) (H.told shelf.new) }
    ensures still { IfErr result (λ cause. cause ≢ Cause.Memory → shelf.new ≡ shelf.old) }
    ensures words { order_of words.now ≡ None → result ≡ Err Cause.Words }
{
    let prepared = prepare(alloc, words, files)?;
    Ok(run(alloc, prepared, shelf)?)
}

// The cause of a run whose text is written whole.
fn cause_of(told: &Told) -> Cause
    requires { length told.now.loads ≤ 64 }
    ensures { result ≡ cause_of told.now }
{
    match first_fault(&told.loads, &told.served) {
        Some(slot) => Cause::Shelf(slot),
        None if all_exit(&told.guests) => Cause::Done,
        None => Cause::GuestEnded,
    }
}

// Whether every guest exited.
fn all_exit(guests: &[GuestEnd]) -> bool
    ensures { result ≡ all_exit guests.now }
{
    guests.iter().all(|guest| is_exit(guest.end))
}

fn is_exit(end: End) -> bool
    ensures { result ≡ is_exit end }
{
    match end {
        End::Exit(_) => true,
        End::Fault { .. } | End::Fuel | End::Unplaced => false,
    }
}

// What is told where nothing was run.
fn nothing(alloc: Global) -> Told
    ensures { result ≡ no_lists }
{
    Told {
        loads: Vec::new(alloc),
        guests: Vec::new(alloc),
        journal: Vec::new(alloc),
        served: Vec::new(alloc),
    }
}

fn ended(cause: Cause, told: Told) -> Ended
    ensures status { result.status ≡ status_of cause }
    ensures cause { result.cause ≡ cause }
    ensures lists { result.lists ≡ told }
{
    let Told {
        loads,
        guests,
        journal,
        served,
    } = told;
    Ended {
        status: status_of(&cause),
        cause,
        loads,
        guests,
        journal,
        served,
    }
}
