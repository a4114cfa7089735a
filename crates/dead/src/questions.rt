// Single questions on a plan sheet, answered no where a check declines the sheet or there is no such node or link.
ghost use Rattle.std.specs.Prelude.{◌≡◌};
ghost use Rattle.plan.specs.Layout.{faults_of};
ghost use Rattle.plan.specs.Checks.{large};
ghost use Rattle.dead.specs.Dead.{dead_node, node_answer, link_answer};
ghost use Rattle.dead.specs.Steps.{any_names};

use crate::names::{names, names_node};
use machine::node::{has_link, neighbour};
use plan::check;
use plan::layout::{count_in, fault_in, shape_in};

fn node_in(sheet: &[u8], node: u16) -> bool
    ensures { result ≡ dead_node (faults_of sheet.now) node }
{
    (0..count_in(sheet)).any(|i| names_node(fault_in(sheet, i), node))
}

fn link_in(sheet: &[u8], node: u16, dir: u8, to: u16) -> bool
    ensures { result ≡ any_names (faults_of sheet.now) node dir to }
{
    (0..count_in(sheet)).any(|i| names(fault_in(sheet, i), node, dir, to))
}

pub fn is_dead_node(sheet: &[u8], node: u16) -> bool
    ensures { result ≡ node_answer large sheet.now node }
{
    if check(sheet).is_err() {
        return false;
    }
    node_in(sheet, node)
}

pub fn is_dead_link(sheet: &[u8], node: u16, dir: u8) -> bool
    ensures { result ≡ link_answer large sheet.now node dir }
{
    if check(sheet).is_err() {
        return false;
    }
    let shape = shape_in(sheet);
    if !has_link(shape, node, dir) {
        return false;
    }
    link_in(sheet, node, dir, neighbour(shape, node, dir))
}
