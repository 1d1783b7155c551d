//! Calls explained from a journal: the adapter that each asks, what happened to it with each entry, what it waited for, which row
//! of the table of verdicts decided it, the activation that serves it and its servant, and its reply; or of all calls what came of them.
//! `specs/Rows.antt` has the rows by their names, `specs/Origins.antt` since when all is set by which calls are held and decided,
//! `specs/Adapters.antt` the adapter of a call, `specs/Serving.antt` its activation, `specs/Stories.antt` what is told of a call,
//! `specs/Objects.antt` what of an object, and `specs/Outcomes.antt` what came of all.
#![tactic(auto)]

mod activity;
mod adapter;
mod basis;
mod beginnings;
mod call_name;
mod came;
mod change;
mod commanding;
mod deciding;
mod doing;
mod event;
mod explainer;
mod explanation;
mod facing;
mod lines;
mod moment;
mod next;
mod object_trail;
mod origin;
mod origins;
mod outcome;
mod replies;
mod row;
mod ruling;
mod selection;
mod servant;
mod server;
mod service;
mod setting;
mod since;
mod slots;
mod step;
mod storing;
mod telling;
mod tenure;
mod text;
mod trail;
mod trails;
mod wait;
mod watch;

pub use adapter::Adapter;
pub use basis::Basis;
pub use beginnings::Beginnings;
pub use call_name::CallName;
pub use came::Came;
pub use change::Change;
pub use deciding::row_of;
pub use doing::Doing;
pub use event::Event;
pub use explainer::Explainer;
pub use explanation::Explanation;
pub use moment::Moment;
pub use object_trail::ObjectTrail;
pub use origin::Origin;
pub use origins::Origins;
pub use outcome::Outcome;
pub use row::Row;
pub use selection::Selection;
pub use servant::Servant;
pub use service::Service;
pub use setting::Setting;
pub use since::Since;
pub use step::Step;
pub use tenure::Tenure;
pub use text::explain_text;
pub use trail::Trail;
pub use wait::Wait;
pub use watch::Watch;
