// The calls, each exported from its crate, and what they give.
#![tactic(auto)]

pub use answers::{Answer, Done, Reason, Refused, Told};
pub use call_add::add;
pub use call_check::check;
pub use call_insert::insert;
pub use call_orbit::orbit;
pub use call_pick::{Picked, pick};
pub use call_read_vtk::read_vtk;
pub use call_remove::remove;
pub use call_sew::{sew, sew_list};
pub use call_sheet::sheet;
pub use call_split::split;
pub use call_undo_redo::{redo, undo};
pub use call_unsew::unsew;
