// The plan sheet, read and written.
ghost use Rattle.std.specs.Prelude.{◌≡◌, ◌*◌, ◌≤◌, length};
ghost use Rattle.basics.specs.Answers.{Promise};
ghost use Rattle.basics.specs.Faults.{fault_in};
ghost use Rattle.bits.specs.Bits.{Bytes};
ghost use Rattle.bits.specs.Sheet.{put_all};
ghost use Rattle.sheets.specs.Answers.{written_of};
ghost use Rattle.sheets.specs.PlanSheet.{PlanShape, plan_end, plan_in, plan_counts_fault, plan_head_fault, plan_body_fault, no_plan, plan_read_of, read_plan, plan_fits, plan_record_fault, plan_fields, FieldsFit, write_plan, plan_out};

use crate::Plan;
use crate::columns::{column, put_doubles, put_singles};
use crate::groups::{fill_fault, form_fault, room_for, runs_out};
use crate::limits::*;
use basics::{Fault, Paper, Refusal, blame, blank, unless, within};

// N or K is outside its limit.
#[tactic(auto, unfolding(crate::specs::PlanSheet::plan_counts_fault))]
fn plan_counts_fault(n: u16, k: u16) -> Result<(), Fault>
    ensures { fault_in result ≡ plan_counts_fault n k }
{
    unless((n <= MAX_OPS) & (k <= MAX_INSTS), Fault::OutsideLimit)
}

// The bits of the sheet of a plan of n operations and k instances.
fn plan_end(n: u16, k: u16) -> usize
    ensures { result ≡ plan_end n k }
{
    PLAN_HEAD + SELECT_BITS * (k as usize) + ROW_BITS * (n as usize)
}

// The first fault of the sheet's header.
#[tactic(auto, using(basics::proofs::FaultLaws::fault_laws), unfolding(crate::specs::PlanSheet::plan_head_fault))]
fn plan_head_fault(s: &[u8]) -> Result<(), Fault>
    ensures { fault_in result ≡ plan_head_fault s.now }
{
    form_fault(s, PLAN_FORM)?;
    runs_out(s.len(), PLAN_HEAD)?;
    let n = bits::field(s, N_AT, OP_BITS) as u16;
    let k = bits::field(s, K_AT, INST_COUNT_BITS) as u16;
    plan_counts_fault(n, k)
}

// The first fault behind the header, in a sheet that spells the plan.
#[tactic(auto, using(basics::proofs::FaultLaws::fault_laws), unfolding(crate::specs::PlanSheet::plan_body_fault))]
fn plan_body_fault(s: &[u8], plan: &Plan) -> Result<(), Fault>
    ensures { fault_in result ≡ plan_body_fault s.now plan.now }
{
    let end = plan_end(plan.n, plan.k);
    runs_out(s.len(), end)?;
    fill_fault(s, end)
}

// The plan that a sheet spells whose header has no fault.
#[tactic(auto, using(crate::proofs::PlanLaws::head_laws), unfolding(crate::specs::PlanSheet::plan_of))]
fn plan_in(s: &[u8]) -> Plan
    requires { plan_head_fault s.now ≡ 0 }
    ensures { result ≡ plan_in s.now }
{
    let n = bits::field(s, N_AT, OP_BITS) as usize;
    let k = bits::field(s, K_AT, INST_COUNT_BITS) as usize;
    let rows = PLAN_HEAD + SELECT_BITS * k;
    Plan {
        n: n as u16,
        k: k as u16,
        selection: column(s, PLAN_HEAD, SELECT_BITS, SELECT_BITS, k),
        starts: column(s, rows, ROW_BITS, STEP_BITS, n),
        insts: column(s, rows + STEP_BITS, ROW_BITS, INST_BITS, n),
    }
}

// A record of zeros. By hand: no clause says of a derived one that it is `no_plan`.
impl Default for Plan {
    ghost is_default = { λ plan. plan ≡ no_plan };

    #[tactic(auto, unfolding(crate::specs::PlanSheet::no_plan))]
    fn default() -> Plan {
        Plan {
            n: 0,
            k: 0,
            selection: [0; INST_CELLS],
            starts: [0; OP_CELLS],
            insts: [0; OP_CELLS],
        }
    }
}

// Reader and writer of a plan beside those of a job: what they share is in `blame` and `room_for`, and a trait for the rest, with its
// laws, would be longer than both.
/// A plan sheet's record, or its first fault.
pub fn read_plan(sheet: &[u8]) -> Result<Plan, Refusal>
    ensures read { plan_read_of result ≡ read_plan sheet.now }
    ensures bytes { Bytes sheet.now }
{
    blame(Paper::Plan, plan_head_fault(sheet))?;
    let plan = plan_in(sheet);
    blame(Paper::Plan, plan_body_fault(sheet, &plan))?;
    Ok(plan)
}

// The numbers fit their fields, and unused cells are 0.
#[tactic(auto, unfolding(crate::specs::PlanSheet::plan_fits))]
fn plan_fits(plan: &Plan) -> bool
    ensures { result ≡ plan_fits plan.now }
{
    let n = plan.n as usize;
    let k = plan.k as usize;
    within(&plan.selection, MAX_SELECT, k)
        & within(&plan.starts, MAX_STEPS, n)
        & within(&plan.insts, MAX_INST, n)
        & blank(&plan.selection, k)
        & blank(&plan.starts, n)
        & blank(&plan.insts, n)
}

// The first fault of a record to be written.
#[tactic(auto, using(basics::proofs::FaultLaws::fault_laws), unfolding(crate::specs::PlanSheet::plan_record_fault))]
fn plan_record_fault(plan: &Plan) -> Result<(), Fault>
    ensures { fault_in result ≡ plan_record_fault plan.now }
{
    plan_counts_fault(plan.n, plan.k)?;
    unless(plan_fits(plan), Fault::RecordBroken)
}

// Puts the header, the selection and the rows.
#[tactic(auto, using(crate::proofs::PlanFieldLaws::plan_put_laws))]
fn put_plan(out: &mut [u8], plan: &Plan)
    requires fit { FieldsFit plan.now }
    requires room { plan_end plan.now.n plan.now.k ≤ 8 * length out.old }
    ensures { out.new ≡ put_all out.old 0 (plan_fields plan.now) }
{
    let n = plan.n as usize;
    let k = plan.k as usize;
    bits::put(out, 0, FORM_BITS, PLAN_FORM);
    bits::put(out, N_AT, OP_BITS, plan.n as u32);
    bits::put(out, K_AT, INST_COUNT_BITS, plan.k as u32);
    put_singles(out, PLAN_HEAD, SELECT_BITS, &plan.selection, k);
    put_doubles(
        out,
        PLAN_HEAD + SELECT_BITS * k,
        STEP_BITS,
        &plan.starts,
        INST_BITS,
        &plan.insts,
        0,
        n,
    );
}

/// Writes the plan's sheet from the output's first byte on, and answers its bytes. A refusal changes no byte.
pub fn write_plan(plan: &Plan, out: &mut [u8]) -> Result<u32, Refusal>
    ensures written { Promise (write_plan plan.now (length out.old)) (plan_out plan.now out.old) (written_of result) out.new }
    ensures shaped { PlanShape plan.now }
{
    blame(Paper::Plan, plan_record_fault(plan))?;
    let end = plan_end(plan.n, plan.k);
    let length = room_for(end, out)?;
    put_plan(out, plan);
    bits::put(out, end, 8 * length - end, 0);
    Ok(length as u32)
}
