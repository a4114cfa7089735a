// Checks 1 to 8 of a plan with 16 between 6 and 7, in order.
ghost use Rattle.std.specs.Prelude.{◌≡◌, ltb};
ghost use Rattle.numbers.specs.Refusals.{answer_number};
ghost use Rattle.plan.specs.Layout.{layout_in, faults_of};
ghost use Rattle.plan.specs.Checks.{large, torus_plans, fault_good, fault_exists, fault_key, faults_error, plan_error};
ghost use Rattle.plan.specs.Steps.{head_error, least_after};

use crate::kinds;
use crate::layout::{
    Fault, LAST_KIND, MOST_FAULTS, count_in, fault_in, head_size, is_known, shape_in, size_after,
    weights_in,
};
use logic::{both, either};
use machine::node::{has_link, is_node};
use numbers::Refusal;
use shape::Shape;
use sheet::head::{length_is, version_in};

// Checks 1 to 4.
fn check_head(sheet: &[u8]) -> Result<(), Refusal>
    ensures { answer_number result ≡ head_error sheet.now }
{
    let version = version_in(sheet);
    let count = count_in(sheet);
    if sheet.len() < head_size(version) {
        return Err(Refusal::PlanShort);
    }
    if !is_known(version) {
        return Err(Refusal::PlanVersionUnknown);
    }
    if MOST_FAULTS < count {
        return Err(Refusal::ManyFaults);
    }
    if !length_is(sheet, size_after(version, count)) {
        return Err(Refusal::WrongLength);
    }
    Ok(())
}

fn fault_exists(shape: Shape, f: Fault) -> bool
    ensures { result ≡ fault_exists shape f }
{
    let linked = has_link(shape, f.node, kinds::dir(f.kind));
    let kind = either(kinds::is_node(f.kind), both(kinds::is_link(f.kind), linked));
    both(is_node(shape, f.node), kind)
}

fn fault_good(shape: Shape, f: Fault) -> bool
    ensures { result ≡ fault_good torus_plans 3 shape f }
{
    both(f.kind <= LAST_KIND, fault_exists(shape, f))
}

// Whether a fault is not above the one before it.
fn not_above(f: Fault, before: Option<Fault>) -> bool
    ensures { result ≡ ltb (fault_key f) (least_after before) }
{
    match before {
        Some(b) => f <= b,
        None => false,
    }
}

// Checks 7 and 8.
fn check_faults(sheet: &[u8], shape: Shape) -> Result<(), Refusal>
    ensures { answer_number result ≡ faults_error torus_plans (layout_in sheet.now).last_kind shape 0 (faults_of sheet.now) }
{
    let mut before = None;
    for i in 0..count_in(sheet) {
        let f = fault_in(sheet, i);
        if !fault_good(shape, f) {
            return Err(Refusal::NoSuchFault);
        }
        if not_above(f, before) {
            return Err(Refusal::FaultNotAbove);
        }
        before = Some(f);
    }
    Ok(())
}

// The first check that declines the sheet.
pub fn check(sheet: &[u8]) -> Result<(), Refusal>
    ensures { answer_number result ≡ plan_error large sheet.now }
{
    check_head(sheet)?;
    let shape = shape_in(sheet);
    shape.check()?;
    weights_in(sheet).check()?;
    check_faults(sheet, shape)
}
