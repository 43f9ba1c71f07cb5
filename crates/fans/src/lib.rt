// The fans at each vertex, from the groups in the work buffer: the class of the vertex, and the count of the singular vertices.
// It stands on `groups`; `cut` stands on it.
#![tactic(auto)]

pub mod marks;
pub mod singular;
