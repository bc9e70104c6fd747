//! The machine's laws, each the contract of a function that does nothing.

mod accounts;
mod calls;
mod cells;
mod clients;
mod events;
mod filed;
mod files;
mod histories;
mod lives;
mod numbers;
mod objects;
mod reached;
mod removals;
mod rules;
mod teardowns;
mod words;

pub use accounts::{coming_covers, owed_covers};
pub use calls::{
    calls_stand_apart, enters_with_few, idle_is_quiet, looks_are_few, make_has_place, steps_run_out,
};
pub use cells::{
    cell_is_one, cells_go_round, last_life, live_cell_is_one, lives_count, spent_is_last,
};
pub use clients::{calls_go_on, calls_in_flight, calls_in_order};
pub use events::{events_count, husks_can_go};
pub use filed::{legal_has_domains, legal_is_filed, legal_torn_well};
pub use files::{
    closed_was_torn, made_is_released, opened_stays, over_is_empty, over_is_idle, phase_goes_on,
    releases_below_enters, tearing_was_torn,
};
pub use histories::{legal_goes_on, state_goes_on};
pub use lives::{destroy_answers, released_at_most_once, released_once, users_first};
pub use numbers::make_has_room;
pub use objects::{
    bound_gives_no_more, keeps_cell, made_by_request, made_counts, made_goes_on, made_in_order,
    objects_stand_apart, released_counts, stands_as_made, stands_by_request, uses_fit,
    uses_keep_cell,
};
pub use reached::{
    legal_is_bounded, legal_is_celled, legal_is_reached, legal_looks_stand, legal_own_stands,
    legal_uses_stand,
};
pub use removals::{
    kills_count, releases_count, sweep_takes_one, sweep_waits, teardown_counts, torn_stays_quiet,
};
pub use rules::{act_has_rule, enter_has_rule, entry_has_rule, open_has_rule, step_has_rule};
pub use teardowns::{
    files_stand_apart, finds_free, open_is_open, phases_stand_apart, sweep_begins, sweep_ends,
    sweep_goes_on, sweep_kills, sweep_leaves, sweep_releases, sweep_shows,
};
pub use words::{
    call_silent, destroy_ends, refused_ends, step_keeps_request, words_are_steps, words_go_on,
};
