// The operations, one file each.
pub mod crew_check;
pub mod flow;
pub mod needs;
pub mod overload;
pub mod sheet;
pub mod starts;
pub mod trim;
pub mod verdict;
