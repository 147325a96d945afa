// Groups of a sheet in stream order, and their faults.
ghost use Rattle.std.specs.Prelude.{◌≡◌, ◌≤◌, ◌<◌, ◌^◌, length, IfOk, IfErr};
ghost use Rattle.basics.specs.Faults.{fault_in};
ghost use Rattle.bits.specs.Sheet.{bytes_for};
ghost use Rattle.sheets.specs.Groups.{runs_out, form_fault, fill_fault};

use crate::limits::FORM_BITS;
use basics::{Fault, Paper, Refusal, unless};

// That an end is small is asked in each contract: it is a number made of a sheet's counts, and no type of its own.
/// A group that ends at bit `end` runs out, in a sheet of so many bytes.
#[tactic(auto, using(crate::proofs::GroupLaws::bytes_bits), unfolding(crate::specs::Groups::runs_out))]
pub fn runs_out(bytes: usize, end: usize) -> Result<(), Fault>
    requires { end < 2 ^ 32 }
    ensures { fault_in result ≡ runs_out bytes end }
{
    unless(bits::bytes_for(end) <= bytes, Fault::BitsRunOut)
}

/// The sheet's form is not `form`, or its bits run out.
#[tactic(auto, using(basics::proofs::FaultLaws::fault_laws), unfolding(crate::specs::Groups::form_fault))]
pub fn form_fault(s: &[u8], form: u32) -> Result<(), Fault>
    ensures { fault_in result ≡ form_fault s.now form }
{
    runs_out(s.len(), FORM_BITS)?;
    unless(bits::field(s, 0, FORM_BITS) == form, Fault::FormDiffers)
}

/// The fill behind bit `end` is not zero, or bytes follow it.
#[tactic(auto, unfolding(crate::specs::Groups::fill_fault))]
pub fn fill_fault(s: &[u8], end: usize) -> Result<(), Fault>
    requires { end < 2 ^ 32 }
    ensures { fault_in result ≡ fill_fault s.now end }
{
    let bytes = bits::bytes_for(end);
    let zero = bits::field(s, end, 8 * bytes - end) == 0;
    unless((s.len() == bytes) & zero, Fault::FillBroken)
}

/// The bytes of a sheet that ends at bit `end`, where the output has room for them.
pub fn room_for(end: usize, out: &[u8]) -> Result<usize, Refusal>
    requires { end < 2 ^ 32 }
    ensures ok { IfOk result (λ size. (size ≡ bytes_for end) × (size ≤ length out.now)) }
    ensures short { IfErr result (λ r. (length out.now < bytes_for end)
        × (r ≡ record { fault = Fault.OutputShort; paper = Paper.Request })) }
{
    let size = bits::bytes_for(end);
    if size <= out.len() {
        Ok(size)
    } else {
        Err(Refusal {
            fault: Fault::OutputShort,
            paper: Paper::Request,
        })
    }
}
