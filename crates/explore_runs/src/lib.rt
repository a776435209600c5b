//! Exploring programs that are given as texts: a report of every outcome, of the core or of the Java
//! machine itself, each with a script that leads there, or with the history of its moves.
//!
//! `docs/FORMATS.md` has the form of a program and of the report, and `docs/EXPLORE.md` what is
//! explored and what is proved.
#![tactic(auto)]

mod faults;
mod histories;
mod java_outcomes;
mod java_reports;
mod java_running;
mod laws;
mod outcomes;
mod reports;
mod running;
mod scripts;
mod tallies;

pub use faults::ExploreTextFault;
pub use histories::moves_of;
pub use java_outcomes::java_outcome_of;
pub use java_reports::java_report_of;
pub use java_running::explore_java_text;
pub use laws::{
    a_script_leads_to_its_state, an_outcome_is_found_on_the_java_machine,
    an_outcome_is_one_of_the_machine,
};
pub use outcomes::outcome_of;
pub use reports::{WitnessForm, report_of};
pub use running::explore_text;
pub use scripts::put_script;
