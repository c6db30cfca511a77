// Carrying out a judgement that is handed in: it is refused where no packet draws it, or where the
// controller is no longer as it was.
ghost use Rattle.std.specs.Prelude.{◌≡◌, true, cond, None, Some, ◌≤◌, length, take};
ghost use Rattle.command.specs.Controller.{transfer_of, transfer_in_rule};
ghost use Rattle.command.specs.Ruling.{forged, meant, items_of, items_kept, same_items};
ghost use Rattle.command.specs.Asking.{outcome_of, carrying_of, carry_call};
ghost use Rattle.command.specs.Inner.{same_numbers, ruling_in_rule, accepted_by};

use crate::carry::carry;
use crate::controller::Controller;
use crate::faults::{Codes, open_for};
use crate::judgement::{Judgement, judge_write};
use crate::output::OUTPUT;
use crate::rules::display_mode;
use crate::ruling::{HOLDS, JudgementRecord, NO_WRONG_BYTE, READS, Ruling, WRITES, accepts};
use crate::table::{Code, Command};
use crate::transfer::{HOLD, TransferState};

// Why the call is refused; each refusal has its number.
#[derive(Clone, Copy, PartialEq, Eq)]
pub enum CarryOutRefusal {
    // The output is too short.
    ShortOutput = 1,
    // The judgement has no error code, and no packet draws it.
    Forged = 2,
    // The controller is out of rule.
    OutOfRule = 3,
    // The controller is not as it was.
    Stale = 4,
}

// The numbers of the judgement keep the rules: no byte is named, the mode and the transfer that it was
// made under are in rule, and the held data are the first of the joined ones.
fn ruling_in_rule(n: Ruling) -> bool
    ensures { result ≡ ruling_in_rule n }
{
    let kept = n.kept;
    let t = kept.transfer();
    let held = t.held();
    let count = n.count as usize;
    n.wrong == NO_WRONG_BYTE
        && display_mode(kept.mode).is_none()
        && t.in_rule()
        && held <= count
        && count <= HOLD
}

// A judgement without codes for this command.
fn accepted(c: Command, n: Ruling, joined: &[u8; HOLD]) -> Option<Judgement>
    requires { n.count ≤ 1024 }
    ensures { result ≡ accepted_by c n (take n.count joined.now) }
{
    let kept = n.kept;
    let t = kept.transfer();
    let closed = !t.is_open();
    let in_order = closed || open_for(Some(c), t);
    if n.accepts == HOLDS && in_order {
        return Some(Judgement::Hold(c));
    }
    if n.accepts == WRITES && in_order {
        let j = judge_write(c, kept.mode, &[], &joined[..n.count as usize]);
        if matches!(j, Judgement::Write(_)) {
            return Some(j);
        }
        return None;
    }
    if n.accepts == READS && closed && c.readable() && n.count == 0 {
        return Some(Judgement::Read(c));
    }
    None
}

// What a record means, unless no packet draws it.
fn meaning(judgement: &JudgementRecord) -> Option<Judgement>
    ensures { result ≡ cond (forged judgement.now) None (Some (meant judgement.now)) }
{
    let n = judgement.ruling;
    if n.codes != 0 {
        let k = Codes::told(n.codes);
        if k.any() {
            return Some(Judgement::Error(k));
        }
        return None;
    }
    if !ruling_in_rule(n) {
        return None;
    }
    let c = Command::find(n.cmd1, n.cmd2)?;
    accepted(c, n, &judgement.joined)
}

// Both are open for the same command with as many bytes held, or neither is open: not derived, since of
// transfers that are not open the other numbers do not matter.
fn same_transfer(t: TransferState, k: TransferState) -> bool
    ensures { result ≡ same_numbers t k }
{
    if !t.is_open() || !k.is_open() {
        return !t.is_open() && !k.is_open();
    }
    t.cmd1 == k.cmd1 && t.cmd2 == k.cmd2 && t.held == k.held
}

// Where the joined data end that begin with so many held ones. Of an error they do not matter, and there
// may be no such place.
fn end(held: usize, count: usize) -> usize
    requires { held ≤ 1024 }
    ensures { (held ≤ result) × (result ≤ 1024) × (held ≤ count → count ≤ 1024 → result ≡ count) }
{
    if held <= count && count <= HOLD {
        return count;
    }
    held
}

impl Controller {
    // The kept items are those of the controller.
    fn is_as_judged(&self, judgement: &JudgementRecord) -> bool
        requires { transfer_in_rule (transfer_of self.now.registers) ≡ true }
        ensures { result ≡ same_items (items_of self.now) (items_kept judgement.now) }
    {
        let kept = judgement.ruling.kept;
        let t = self.registers.transfer();
        if self.settings.mode != kept.mode {
            return false;
        }
        if !same_transfer(t, kept.transfer()) {
            return false;
        }
        let n = t.held();
        self.buffer[..n] == judgement.joined[..n]
    }

    // The call. What is half received stays where it is.
    pub fn carry_out(
        &mut self,
        judgement: &JudgementRecord,
        out: &mut [u8],
    ) -> Result<usize, CarryOutRefusal>
        ensures { carrying_of result self.new out.new ≡ carry_call self.old judgement.now out.old }
    {
        if out.len() < OUTPUT {
            return Err(CarryOutRefusal::ShortOutput);
        }
        if !self.in_rule() {
            return Err(CarryOutRefusal::OutOfRule);
        }
        let Some(j) = meaning(judgement) else {
            return Err(CarryOutRefusal::Forged);
        };
        if !self.is_as_judged(judgement) {
            return Err(CarryOutRefusal::Stale);
        }
        let n = judgement.ruling;
        let held = self.registers.transfer().held();
        let count = end(held, n.count as usize);
        Ok(carry(
            &mut self.settings,
            &mut self.registers,
            &mut self.buffer,
            Code::new(n.cmd1, n.cmd2),
            &judgement.joined[held..count],
            j,
            out,
        ))
    }
}

// The answer, and the controller afterwards.
#[derive(Clone, Copy)]
pub struct CarryStep {
    pub controller: Controller,
    // The length of the response, or the refusal.
    pub answer: Result<usize, CarryOutRefusal>,
}

// The call on a controller and a judgement by value.
pub fn carry_out(c: Controller, j: JudgementRecord, out: &mut [u8]) -> CarryStep
    ensures { (outcome_of result.answer ≡ (carry_call c j out.old).answer)
        × (result.controller ≡ (carry_call c j out.old).controller)
        × (out.new ≡ (carry_call c j out.old).output) }
{
    let mut controller = c;
    let answer = controller.carry_out(&j, out);
    CarryStep { controller, answer }
}
