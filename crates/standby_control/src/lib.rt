// Frames that are no Batch: pending commits run first, then Hello, Bind, Checked, or 19 (standby.rs, on_frame_held).
#![tactic(auto)]

ghost use Rattle.std.specs.Prelude.{◌≡◌, false, ◌≤◌, length};
ghost use Rattle.model_text.specs.Version.{latest};
ghost use Rattle.std.proofs.Math.Option.{none};
ghost use Rattle.model_frame.specs.Parse.{is_empty, read_num};
ghost use Rattle.frame_op.specs.Answers.{run_of};
ghost use Rattle.frame.specs.Answers.{frame_of};
ghost use Rattle.store_areas.specs.Areas.{Rules};
ghost use Rattle.standby_hello.specs.Greeting.{Replies};
ghost use Rattle.model_standby.specs.Core.{core_intact};
ghost use Rattle.standby_state.specs.Lent.{SameLent, holds_of};
ghost use Rattle.standby_control.specs.Others.{Plain, Fit, cleared_if, OtherIs, OtherIn};
ghost use Rattle.store_areas.specs.StoreWord;

use base_refusals::Refusal;
use frame::Frame;
use frame_op::Run;
use frame_reader::Reader;
use standby_state::{Areas, Outcome, Replica, Settings, Standing};

// Whether a run of kinds is empty.
fn no_kinds(frame: &[u8], run: Run) -> bool
    ensures { result ≡ is_empty (run_of (read_num 2) frame.now run) }
{
    if run.count == 0 {
        return true;
    }
    let mut reader = Reader {
        buf: frame,
        at: run.at,
    };
    reader.number::<u16>().is_err()
}

// Drops the pending commits, if the bindings go.
fn clear_if(words: &mut [u64], clears: bool)
    requires { StoreWord.places ≤ length words.old }
    ensures { words.new ≡ cleared_if clears words.old }
{
    if clears {
        standby_pending::clear(words);
    }
}

// What a frame answers that needs no more than the counters.
fn answer_by_counters(
    frame: &[u8],
    counters: Replica,
    settings: Settings,
    decoded: Frame,
) -> Outcome
    requires { Plain (frame_of latest frame.now decoded) }
    ensures { Replies counters settings (λ L k. core_intact L k none (λ p. false) (frame_of latest frame.now decoded)) result }
{
    match decoded {
        Frame::Hello {
            version,
            epoch,
            node: _,
            app_record_kinds,
        } => {
            let none = no_kinds(frame, app_record_kinds);
            standby_hello::on_hello(counters, settings, version, epoch, none)
        }
        Frame::Checked {
            handle,
            epoch,
            incarnation,
        } => standby_hello::on_checked(counters, settings, handle, epoch, incarnation),
        _ => standby_state::refuse(counters, Refusal::OtherFrame),
    }
}

// What the frame answers, once due commits have run.
fn answer(standing: Standing, areas: &mut Areas, frame: &[u8], decoded: Frame) -> Outcome
    requires rules { Rules standing.settings.shape areas.old.words.now areas.old.bytes.now }
    requires fit { Fit (frame_of latest frame.now decoded) }
    ensures is { OtherIs standing.settings standing.counters standing.lookup areas.old.row.now (frame_of latest frame.now decoded) areas.old.words.now areas.new.words.now areas.old.bytes.now areas.new.bytes.now result }
    ensures holds { holds_of areas.new ≡ holds_of areas.old }
    ensures same { SameLent areas.old areas.new }
{
    match decoded {
        Frame::Bind {
            handle,
            epoch,
            max_lag,
            session,
        } => standby_bind::on_bind(standing, areas, frame, handle, epoch, max_lag, session),
        _ => {
            let outcome = answer_by_counters(frame, standing.counters, standing.settings, decoded);
            clear_if(areas.words, outcome.action.clears());
            outcome
        }
    }
}

// Pending commits run, and then the frame is answered.
pub fn run_due_then_answer(
    standing: Standing,
    areas: &mut Areas,
    frame: &[u8],
    decoded: Frame,
) -> Outcome
    requires rules { Rules standing.settings.shape areas.old.words.now areas.old.bytes.now }
    requires fit { Fit (frame_of latest frame.now decoded) }
    ensures is { OtherIn standing.settings standing.counters standing.lookup areas.old.row.now (frame_of latest frame.now decoded) areas.old.words.now areas.new.words.now areas.old.bytes.now areas.new.bytes.now result }
    ensures holds { holds_of areas.new ≡ holds_of areas.old }
    ensures same { SameLent areas.old areas.new }
{
    let words = &mut *areas.words;
    let bytes = &mut *areas.bytes;
    let due = standby_pending_run::is_pending(words);
    standby_pending_run::run_if(words, bytes, standing.settings.shape, due);
    answer(standing, areas, frame, decoded)
}
