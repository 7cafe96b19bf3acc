// Where references lead (resolve_phandle), and the post checks (check_mir_post).
#![tactic(auto)]

pub mod check_mir_post;
pub mod check_phandles;
