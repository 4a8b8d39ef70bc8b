// What every layer is measured by: the definitions stand in specs/, the types that they share with the code here.
#![tactic(auto)]

pub mod action;
pub mod axis;
pub mod entry;
pub mod fault;
pub mod limits;
