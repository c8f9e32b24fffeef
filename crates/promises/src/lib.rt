// Laws only: what holds of the calls, for the owner of the service. The statements stand in specs/: what the contracts allow (allowed),
// demand 1 (demand_one), demand 3 (demand_three), three answers (undecided), a yes that means yes (yes_of_cones, yes_of_calls), serials,
// rules, the border rows (border), traces and sheets (read_back, replay_kept, thin_kept, cut_traces, sheet_lines); and that any two
// outcomes of an export agree (agree).
#![tactic(auto)]

pub mod agree;
pub mod allowed;
pub mod border;
pub mod cut_traces;
pub mod demand_one;
pub mod demand_three;
pub mod read_back;
pub mod replay_kept;
pub mod rules;
pub mod serials;
pub mod sheet_lines;
pub mod thin_kept;
pub mod undecided;
pub mod yes_of_calls;
pub mod yes_of_cones;
