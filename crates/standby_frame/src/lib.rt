// Taking one frame (standby.rs, on_frame_held and on_frame): 25; the reader's number, or 26 if it isn't just one whole frame; 10 promoted;
// then due commits and the frame's own answer.
// Each call tests the rules itself, so that it asks nothing of its caller.
// The functions below ask for the rules: as a struct's they would have to be proved again where each ends.
#![tactic(auto)]

ghost use Rattle.std.specs.Prelude.{◌≡◌, true};
ghost use Rattle.model_text.specs.Version.{latest};
ghost use Rattle.model_frame.specs.Writing.{Writable};
ghost use Rattle.frame.specs.Answers.{frame_of, Sized};
ghost use Rattle.store_areas.specs.Areas.{Rules};
ghost use Rattle.model_standby.specs.Answer.{is_reply};
ghost use Rattle.model_standby.specs.State.{on_frame_held, on_frame};
ghost use Rattle.standby_state.specs.Answers.{answer_of};
ghost use Rattle.standby_state.specs.Lent.{SameLent, holds_of};
ghost use Rattle.standby_batch_due.specs.DueBatch.{RecordRulesIn};
ghost use Rattle.standby_step.specs.Steps.{is_found};
ghost use Rattle.standby_step.specs.Over.{StepOver};
ghost use Rattle.standby_frame.specs.Taking.{is_answered, IntactIs, Takes};

use base_refusals::Refusal;
use frame::Frame;
use frame_stamp::Protocol;
use standby_state::{Answer, Areas, Outcome, Standing};

// A frame that was read, once the standby isn't promoted.
fn on_decoded(standing: Standing, areas: &mut Areas, frame: &[u8], decoded: Frame) -> Outcome
    requires rules { Rules standing.settings.shape areas.old.words.now areas.old.bytes.now }
    requires record_rules_in { is_found standing.lookup ≡ true → RecordRulesIn standing.lookup areas.old.words.now (holds_of areas.old) }
    requires writable { Writable latest (frame_of latest frame.now decoded) }
    requires sized { Sized latest frame.now decoded }
    ensures is { IntactIs standing.settings standing.counters standing.lookup areas.old.row.now (frame_of latest frame.now decoded) areas.old.words.now areas.new.words.now areas.old.bytes.now areas.new.bytes.now (holds_of areas.old) (holds_of areas.new) result }
    ensures same { SameLent areas.old areas.new }
{
    match decoded {
        Frame::Batch(b) => standby_batch_due::run_due_then_batch(standing, areas, frame, b),
        _ => standby_control::run_due_then_answer(standing, areas, frame, decoded),
    }
}

// The areas keep the rules (25): the bytes are read as a frame, in the connection's version. What is read so, the latest version reads alike.
fn on_bytes(standing: Standing, areas: &mut Areas, frame: &[u8]) -> Outcome
    requires rules { Rules standing.settings.shape areas.old.words.now areas.old.bytes.now }
    requires record_rules_in { is_found standing.lookup ≡ true → RecordRulesIn standing.lookup areas.old.words.now (holds_of areas.old) }
    ensures is { Takes standing.settings standing.counters standing.lookup areas.old.row.now frame.now areas.old.words.now areas.new.words.now areas.old.bytes.now areas.new.bytes.now (holds_of areas.old) (holds_of areas.new) result }
    ensures same { SameLent areas.old areas.new }
{
    let counters = standing.counters;
    match Frame::decode(Protocol::of_byte(counters.version2), frame) {
        Err(e) => standby_state::unchanged(counters, standby_state::refused(e.number())),
        Ok(None) => standby_state::refuse(counters, Refusal::NotOneFrame),
        Ok(Some((f, n))) => {
            if n != frame.len() {
                return standby_state::refuse(counters, Refusal::NotOneFrame);
            }
            if counters.promoted != 0 {
                return standby_state::refuse(counters, Refusal::Promoted);
            }
            on_decoded(standing, areas, frame, f)
        }
    }
}

// on_frame_held: commits that the frame leaves pending stay so.
pub fn on_frame_held(standing: Standing, areas: &mut Areas, frame: &[u8]) -> Outcome
    ensures is { StepOver standing (on_frame_held frame.now) areas.old areas.new result }
    ensures same { SameLent areas.old areas.new }
{
    if !standby_rules::are_kept(standing, areas) {
        return standby_state::refuse(standing.counters, Refusal::RulesBroken);
    }
    on_bytes(standing, areas, frame)
}

// Whether a frame is answered, a Nack too.
fn is_answered(answer: Answer) -> bool
    ensures { result ≡ is_answered answer }
{
    (answer.refusal == 0) & (answer.kind != 0)
}

// on_frame: pending commits run after every answered frame.
pub fn on_frame(standing: Standing, areas: &mut Areas, frame: &[u8]) -> Outcome
    ensures is { StepOver standing (on_frame frame.now) areas.old areas.new result }
    ensures same { SameLent areas.old areas.new }
{
    if !standby_rules::are_kept(standing, areas) {
        return standby_state::refuse(standing.counters, Refusal::RulesBroken);
    }
    let outcome = on_bytes(standing, areas, frame);
    let shape = standing.settings.shape;
    let bytes = &mut *areas.bytes;
    standby_pending_run::run_if(areas.words, bytes, shape, is_answered(outcome.answer));
    outcome
}
