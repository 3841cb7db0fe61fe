// The line that tells why a plan is not lawful.
ghost use Rattle.std.specs.Prelude.{◌≡◌, ◌++◌, OnOk, IfOk, codes};
ghost use Rattle.plan_form.specs.Printing.{kind_text, step_number_text, place_number_text, where_text, illegal_text};

use crate::fault::{PlanFault, PlanFaultKind};
use lists::Bytes;
use pq_text::print_number;
use std::alloc::{AllocError, Global};

/// The line that tells a fault, as `illegal: branch 1 step 2 place 1: input not known`. Numbers count from 1.
pub fn illegal_text(alloc: Global, fault: &PlanFault) -> Result<Bytes, AllocError>
    ensures { IfOk result (λ line. line ≡ illegal_text fault.now) }
{
    let mut out = Vec::new(alloc);
    out.extend_from_slice(b"illegal:")?;
    push_where(&mut out, fault)?;
    out.extend_from_slice(b" ")?;
    push_kind(&mut out, fault.kind)?;
    out.extend_from_slice(b"\n")?;
    Ok(Bytes::from_vec(out))
}

fn push_where(out: &mut Vec<u8>, fault: &PlanFault) -> Result<(), AllocError>
    ensures { OnOk result (out.new.items ≡ out.old.items ++ where_text fault.now.kind fault.now) }
{
    match fault.kind {
        PlanFaultKind::WrongWidth => Ok(()),
        PlanFaultKind::NoSuchMethod | PlanFaultKind::WrongArity => push_step(out, fault),
        PlanFaultKind::InputNotKnown | PlanFaultKind::UnknownConstant | PlanFaultKind::BadColumn =>
            { push_place(out, fault) }
    }
}

fn push_step(out: &mut Vec<u8>, fault: &PlanFault) -> Result<(), AllocError>
    ensures { OnOk result (out.new.items ≡ out.old.items ++ step_number_text fault.now ++ codes ":") }
{
    push_step_number(out, fault)?;
    out.extend_from_slice(b":")?;
    Ok(())
}

fn push_place(out: &mut Vec<u8>, fault: &PlanFault) -> Result<(), AllocError>
    ensures { OnOk result (out.new.items ≡ out.old.items ++ step_number_text fault.now ++ place_number_text fault.now ++ codes ":") }
{
    push_step_number(out, fault)?;
    out.extend_from_slice(b" place ")?;
    print_number(out, fault.place as u64 + 1)?;
    out.extend_from_slice(b":")?;
    Ok(())
}

fn push_step_number(out: &mut Vec<u8>, fault: &PlanFault) -> Result<(), AllocError>
    ensures { OnOk result (out.new.items ≡ out.old.items ++ step_number_text fault.now) }
{
    out.extend_from_slice(b" branch ")?;
    print_number(out, fault.branch as u64 + 1)?;
    out.extend_from_slice(b" step ")?;
    print_number(out, fault.step as u64 + 1)?;
    Ok(())
}

fn push_kind(out: &mut Vec<u8>, kind: PlanFaultKind) -> Result<(), AllocError>
    ensures { OnOk result (out.new.items ≡ out.old.items ++ kind_text kind) }
{
    match kind {
        PlanFaultKind::NoSuchMethod => out.extend_from_slice(b"no such method")?,
        PlanFaultKind::InputNotKnown => out.extend_from_slice(b"input not known")?,
        PlanFaultKind::UnknownConstant => out.extend_from_slice(b"unknown constant")?,
        PlanFaultKind::BadColumn => out.extend_from_slice(b"bad column")?,
        PlanFaultKind::WrongArity => out.extend_from_slice(b"wrong arity")?,
        PlanFaultKind::WrongWidth => out.extend_from_slice(b"wrong width")?,
    }
    Ok(())
}
