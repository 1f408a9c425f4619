// The calls on an account table but for open, which is of the table's type. Document 01, "Calls".
// Each takes a table of any length and contents; a refused call leaves it as it came.
#![tactic(auto)]

pub use comparing::same;
pub use diskrate::change_rate;
pub use joining::join;
pub use leaving::leave;
pub use looking::look;
pub use requesting::request;
pub use sharing::change_share;
pub use ticking::tick;
