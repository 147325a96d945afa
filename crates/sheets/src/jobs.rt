// The job sheet, read and written.
ghost use Rattle.std.specs.Prelude.{◌≡◌, ◌*◌, ◌^◌, ◌≤◌, ◌<◌, length};
ghost use Rattle.basics.specs.Counting.{all_to, sum_to};
ghost use Rattle.basics.specs.Faults.{fault_in, first};
ghost use Rattle.basics.specs.Tables.{cell as cell_of};
ghost use Rattle.basics.specs.Answers.{Promise};
ghost use Rattle.bits.specs.Bits.{Bytes, field};
ghost use Rattle.bits.specs.Sheet.{put_all};
ghost use Rattle.sheets.specs.Limits.{kind_count, t_at, wire_at, step_bits, time_bits, job_head};
ghost use Rattle.sheets.specs.Answers.{written_of};
ghost use Rattle.sheets.specs.JobRecord.{JobShape, job_counts_fault, ascends, link_fault, pair_ok, pair_sound, type_fault, graph_blank, units_blank, job_fits, job_record_fault};
ghost use Rattle.sheets.specs.JobSheet.{n_in, e_in, m_in, clock_in, job_in, links_at, types_at, job_end, job_head_fault, job_tables_fault, job_body_fault, link_group, type_group, no_job, job_read_of, read_job, job_head_fields, graph_fields, unit_fields, job_fields, FieldsFit, write_job, job_out};

use crate::Job;
use crate::columns::{column, pair_column, put_doubles, put_singles};
use crate::groups::{fill_fault, form_fault, room_for, runs_out};
use crate::limits::*;
use basics::{Fault, Paper, Refusal, blame, blank, cell, unless, within};

// A record of zeros. By hand: no clause says of a derived one that it is `no_job`.
impl Default for Job {
    ghost is_default = { λ job. job ≡ no_job };

    #[tactic(auto, unfolding(crate::specs::JobSheet::no_job))]
    fn default() -> Job {
        Job {
            n: 0,
            e: 0,
            m: 0,
            t: 0,
            clock: 0,
            wire: 0,
            kinds: [0; OP_CELLS],
            from: [0; LINK_CELLS],
            to: [0; LINK_CELLS],
            costs: [0; TYPE_CELLS],
            copies: [0; TYPE_CELLS],
            times: [0; PAIR_CELLS],
            intervals: [0; PAIR_CELLS],
        }
    }
}

// Functions of counts and not of a job, since a header's counts are known before there is one.
// Where links, types and fill start.
fn links_at(n: u16) -> usize
    ensures { result ≡ links_at n }
{
    JOB_HEAD + KIND_BITS * usize::from(n)
}

fn types_at(n: u16, e: u16) -> usize
    ensures { result ≡ types_at n e }
{
    links_at(n) + LINK_BITS * usize::from(e)
}

fn job_end(n: u16, e: u16, m: u16) -> usize
    ensures { result ≡ job_end n e m }
{
    types_at(n, e) + TYPE_BITS * usize::from(m)
}

// N, E, M or the clock is outside its limit.
#[tactic(auto, unfolding(crate::specs::JobRecord::job_counts_fault))]
fn job_counts_fault(job: &Job) -> Result<(), Fault>
    ensures { fault_in result ≡ job_counts_fault job.now.n job.now.e job.now.m job.now.clock }
{
    unless(
        (job.n <= MAX_OPS)
            & (job.e <= MAX_LINKS)
            & (job.m <= MAX_TYPES)
            & (1 <= job.clock)
            & (job.clock <= MAX_TIME),
        Fault::OutsideLimit,
    )
}

// Link i is behind the one before it.
#[tactic(auto, using(crate::proofs::JobLaws::ascends_laws))]
fn ascends(job: &Job, i: usize) -> bool
    ensures { result ≡ ascends job.now.from job.now.to i }
{
    let (from, to) = (&job.from, &job.to);
    i == 0 || (cell(from, i - 1), cell(to, i - 1)) < (cell(from, i), cell(to, i))
}

// Link i breaks its rule.
#[tactic(auto, unfolding(crate::specs::JobRecord::link_fault))]
fn link_fault(job: &Job, i: usize) -> Result<(), Fault>
    ensures { fault_in result ≡ link_fault job.now.from job.now.to job.now.n i }
{
    let a = cell(&job.from, i);
    let b = cell(&job.to, i);
    unless((a < b) & (b < job.n) & ascends(job, i), Fault::LinkBroken)
}

// The first fault of the links, in a sheet of so many bytes.
#[tactic(auto, using(crate::proofs::GroupLaws::group_laws), unfolding(crate::specs::JobSheet::link_group))]
fn links_fault(bytes: usize, job: &Job) -> Result<(), Fault>
    ensures { fault_in result ≡ first (link_group bytes job.now.from job.now.to job.now.n) job.now.e }
{
    let at = links_at(job.n);
    for i in 0..job.e as usize {
        runs_out(bytes, at + LINK_BITS * (i + 1))?;
        link_fault(job, i)?;
    }
    Ok(())
}

// A time and its interval.
fn pair_ok(time: u16, interval: u16) -> bool
    ensures { result ≡ pair_ok time interval }
{
    ((time == 0) & (interval == 0)) | ((1 <= interval) & (interval <= time) & (time <= MAX_TIME))
}

// The times and intervals of type y keep their rule.
fn pairs_sound(job: &Job, y: usize) -> bool
    requires { y < 2 ^ 16 }
    ensures { result ≡ all_to (pair_sound job.now.times job.now.intervals y) kind_count }
{
    (0..KIND_COUNT).all(|k| {
        let c = KIND_COUNT * y + k;
        pair_ok(cell(&job.times, c), cell(&job.intervals, c))
    })
}

// Type y breaks its rule, where the types before it have `before` copies.
#[tactic(auto, unfolding(crate::specs::JobRecord::type_fault))]
fn type_fault(job: &Job, y: usize, before: usize) -> Result<(), Fault>
    requires near { y < 2 ^ 16 }
    requires few { before < 2 ^ 40 }
    requires passed { before ≡ sum_to (cell_of job.now.copies) y }
    ensures { fault_in result ≡ type_fault job.now.copies job.now.times job.now.intervals y }
{
    let own = cell(&job.copies, y);
    let copies_ok = (1 <= own)
        & (own <= MAX_COPIES)
        & (before + own as usize <= MAX_INSTS as usize);
    unless(copies_ok & pairs_sound(job, y), Fault::TypeBroken)
}

// The first fault of the types, in a sheet of so many bytes.
#[tactic(auto, using(crate::proofs::GroupLaws::group_laws), unfolding(crate::specs::JobSheet::type_group))]
fn types_fault(bytes: usize, job: &Job) -> Result<(), Fault>
    ensures { fault_in result
        ≡ first (type_group bytes (types_at job.now.n job.now.e) job.now.copies job.now.times job.now.intervals) job.now.m }
{
    let at = types_at(job.n, job.e);
    let mut before: usize = 0;
    for y in 0..job.m as usize {
        runs_out(bytes, at + TYPE_BITS * (y + 1))?;
        type_fault(job, y, before)?;
        before += cell(&job.copies, y) as usize;
    }
    Ok(())
}

// The header that a sheet spells, without tables.
fn job_head(s: &[u8]) -> Job
    ensures ops { result.n ≡ n_in s.now }
    ensures links { result.e ≡ e_in s.now }
    ensures types { result.m ≡ m_in s.now }
    ensures steps { result.t ≡ field s.now t_at step_bits }
    ensures clock { result.clock ≡ clock_in s.now }
    ensures wire { result.wire ≡ field s.now wire_at time_bits }
{
    Job {
        n: bits::field(s, N_AT, OP_BITS) as u16,
        e: bits::field(s, E_AT, LINK_COUNT_BITS) as u16,
        m: bits::field(s, M_AT, TYPE_COUNT_BITS) as u16,
        t: bits::field(s, T_AT, STEP_BITS) as u16,
        clock: bits::field(s, CLOCK_AT, TIME_BITS) as u16,
        wire: bits::field(s, WIRE_AT, TIME_BITS) as u16,
        ..Job::default()
    }
}

// The first fault of the sheet's header.
#[tactic(auto, using(basics::proofs::FaultLaws::fault_laws), unfolding(crate::specs::JobSheet::job_head_fault))]
fn job_head_fault(s: &[u8]) -> Result<(), Fault>
    ensures { fault_in result ≡ job_head_fault s.now }
{
    form_fault(s, JOB_FORM)?;
    runs_out(s.len(), JOB_HEAD)?;
    job_counts_fault(&job_head(s))
}

// The first fault of links and types, in a sheet of so many bytes.
#[tactic(auto, using(basics::proofs::FaultLaws::fault_laws), unfolding(crate::specs::JobSheet::job_tables_fault))]
fn job_tables_fault(bytes: usize, job: &Job) -> Result<(), Fault>
    ensures { fault_in result ≡ job_tables_fault bytes job.now }
{
    links_fault(bytes, job)?;
    types_fault(bytes, job)
}

// The first fault behind the header, in a sheet that spells the job.
#[tactic(auto, using(basics::proofs::FaultLaws::fault_laws), unfolding(crate::specs::JobSheet::job_body_fault))]
fn job_body_fault(s: &[u8], job: &Job) -> Result<(), Fault>
    ensures { fault_in result ≡ job_body_fault s.now job.now }
{
    runs_out(s.len(), links_at(job.n))?;
    job_tables_fault(s.len(), job)?;
    fill_fault(s, job_end(job.n, job.e, job.m))
}

// The job that a sheet spells whose header has no fault.
#[tactic(auto, using(crate::proofs::JobLaws::head_laws), unfolding(crate::specs::JobSheet::job_of))]
fn job_in(s: &[u8]) -> Job
    requires { job_head_fault s.now ≡ 0 }
    ensures { result ≡ job_in s.now }
{
    let head = job_head(s);
    let ops = head.n as usize;
    let links = links_at(head.n);
    let link_count = head.e as usize;
    let types = types_at(head.n, head.e);
    let type_count = head.m as usize;
    let pairs = types + TYPE_HEAD;
    let pair_count = KIND_COUNT * type_count;
    Job {
        kinds: column(s, JOB_HEAD, KIND_BITS, KIND_BITS, ops),
        from: column(s, links, LINK_BITS, OP_BITS, link_count),
        to: column(s, links + OP_BITS, LINK_BITS, OP_BITS, link_count),
        costs: column(s, types, TYPE_BITS, COST_BITS, type_count),
        copies: column(s, types + COST_BITS, TYPE_BITS, COPIES_BITS, type_count),
        times: pair_column(s, pairs, pair_count),
        intervals: pair_column(s, pairs + TIME_BITS, pair_count),
        ..head
    }
}

/// A job sheet's record, or its first fault.
pub fn read_job(sheet: &[u8]) -> Result<Job, Refusal>
    ensures read { job_read_of result ≡ read_job sheet.now }
    ensures bytes { Bytes sheet.now }
{
    blame(Paper::Job, job_head_fault(sheet))?;
    let job = job_in(sheet);
    blame(Paper::Job, job_body_fault(sheet, &job))?;
    Ok(job)
}

// The unused cells of kinds and links are 0.
#[tactic(auto, unfolding(crate::specs::JobRecord::graph_blank))]
fn graph_blank(job: &Job) -> bool
    ensures { result ≡ graph_blank job.now }
{
    let e = job.e as usize;
    blank(&job.kinds, job.n as usize) & blank(&job.from, e) & blank(&job.to, e)
}

// The unused cells of types are 0.
#[tactic(auto, unfolding(crate::specs::JobRecord::units_blank))]
fn units_blank(job: &Job) -> bool
    ensures { result ≡ units_blank job.now }
{
    let m = job.m as usize;
    let pairs = KIND_COUNT * m;
    blank(&job.costs, m)
        & blank(&job.copies, m)
        & blank(&job.times, pairs)
        & blank(&job.intervals, pairs)
}

// The numbers that no other rule bounds fit their fields, and unused cells are 0.
#[tactic(auto, unfolding(crate::specs::JobRecord::job_fits))]
fn job_fits(job: &Job) -> bool
    ensures { result ≡ job_fits job.now }
{
    (job.t <= MAX_STEPS)
        & (job.wire <= MAX_TIME)
        & within(&job.kinds, MAX_KIND, job.n as usize)
        & graph_blank(job)
        & units_blank(job)
}

// The first fault of a record to be written.
#[tactic(auto, using(crate::proofs::RecordLaws::record_laws), unfolding(crate::specs::JobRecord::job_record_fault))]
fn job_record_fault(job: &Job) -> Result<(), Fault>
    ensures { fault_in result ≡ job_record_fault job.now }
{
    job_counts_fault(job)?;
    let bytes = bits::bytes_for(job_end(job.n, job.e, job.m));
    job_tables_fault(bytes, job)?;
    unless(job_fits(job), Fault::RecordBroken)
}

// That the fields fit (`FieldsFit`) is asked by each function that puts them, and is no type: any record may come to the writer.
// Puts the header.
#[tactic(auto, using(crate::proofs::JobFieldLaws::job_put_laws), unfolding(bits::specs::Sheet::put_all))]
fn put_job_head(out: &mut [u8], job: &Job)
    requires fit { FieldsFit job.now }
    requires room { job_head ≤ 8 * length out.old }
    ensures { out.new ≡ put_all out.old 0 (job_head_fields job.now) }
{
    bits::put(out, 0, FORM_BITS, JOB_FORM);
    bits::put(out, N_AT, OP_BITS, job.n as u32);
    bits::put(out, E_AT, LINK_COUNT_BITS, job.e as u32);
    bits::put(out, M_AT, TYPE_COUNT_BITS, job.m as u32);
    bits::put(out, T_AT, STEP_BITS, job.t as u32);
    bits::put(out, CLOCK_AT, TIME_BITS, job.clock as u32);
    bits::put(out, WIRE_AT, TIME_BITS, job.wire as u32);
}

// Puts kinds and links behind the header.
#[tactic(auto, using(crate::proofs::JobFieldLaws::job_put_laws))]
fn put_graph(out: &mut [u8], job: &Job)
    requires fit { FieldsFit job.now }
    requires room { types_at job.now.n job.now.e ≤ 8 * length out.old }
    ensures { out.new ≡ put_all out.old job_head (graph_fields job.now) }
{
    let n = job.n as usize;
    let e = job.e as usize;
    put_singles(out, JOB_HEAD, KIND_BITS, &job.kinds, n);
    put_doubles(
        out,
        links_at(job.n),
        OP_BITS,
        &job.from,
        OP_BITS,
        &job.to,
        0,
        e,
    );
}

// Puts the types behind the links.
#[tactic(auto, using(crate::proofs::JobFieldLaws::job_put_laws))]
fn put_units(out: &mut [u8], job: &Job)
    requires fit { FieldsFit job.now }
    requires room { job_end job.now.n job.now.e job.now.m ≤ 8 * length out.old }
    ensures { out.new ≡ put_all out.old (types_at job.now.n job.now.e) (unit_fields job.now) }
{
    let at = types_at(job.n, job.e);
    for y in 0..job.m as usize {
        let here = at + TYPE_BITS * y;
        bits::put(out, here, COST_BITS, cell(&job.costs, y) as u32);
        bits::put(
            out,
            here + COST_BITS,
            COPIES_BITS,
            cell(&job.copies, y) as u32,
        );
        put_doubles(
            out,
            here + TYPE_HEAD,
            TIME_BITS,
            &job.times,
            TIME_BITS,
            &job.intervals,
            KIND_COUNT * y,
            KIND_COUNT,
        );
    }
}

// Puts the header, kinds and links, and the types.
#[tactic(auto, using(crate::proofs::JobFieldLaws::job_put_laws))]
fn put_job(out: &mut [u8], job: &Job)
    requires fit { FieldsFit job.now }
    requires room { job_end job.now.n job.now.e job.now.m ≤ 8 * length out.old }
    ensures { out.new ≡ put_all out.old 0 (job_fields job.now) }
{
    put_job_head(out, job);
    put_graph(out, job);
    put_units(out, job);
}

/// Writes the job's sheet from the output's first byte on, and answers its bytes. A refusal changes no byte.
pub fn write_job(job: &Job, out: &mut [u8]) -> Result<u32, Refusal>
    ensures written { Promise (write_job job.now (length out.old)) (job_out job.now out.old) (written_of result) out.new }
    ensures shaped { JobShape job.now }
{
    blame(Paper::Job, job_record_fault(job))?;
    let end = job_end(job.n, job.e, job.m);
    let length = room_for(end, out)?;
    put_job(out, job);
    bits::put(out, end, 8 * length - end, 0);
    Ok(length as u32)
}
