#![tactic(auto)]
//! The words of the monitor: numbers of pages, harts and TVMs, ranges, statuses, calls, events, lists and
//! scripts, with the limits of each. Every other crate stands on this one.

mod calls;
mod compact;
mod events;
mod faults;
mod histories;
mod instructions;
mod limits;
mod lists;
mod modes;
mod numbers;
mod places;
mod plans;
mod quotes;
mod ranges;
mod registers;
mod script_lines;
mod scripts;
mod sizes;
mod statuses;
mod steps;
mod stores;
mod walks;
mod words;

pub use calls::{GuestAct, HostCall};
pub use compact::{CompactEntry, CompactEvent};
pub use events::{Entry, Event, Exit, How, Walked};
pub use faults::{Kind, ScriptFault};
pub use histories::{History, LentEntry};
pub use instructions::{CsrMode, Insn};
pub use limits::{
    ENTRY_LIMIT, FILE_LIMIT, FUEL_LIMIT, HART_LIMIT, KEY_LIMIT, PAGE_LIMIT, PHASE_LIMIT,
    QUOTE_LIMIT, RANGE_LIMIT, REGION_LIMIT, SCRIPT_LIMIT, SHARED_RUN_LIMIT, TVM_LIMIT, VCPU_LIMIT,
    limits_law,
};
pub use lists::{Bytes, Fills, Items, Turns};
pub use modes::{Mode, mode_of};
pub use numbers::{Gpn, HartId, NoMemory, Page, Role, TvmId};
pub use places::{
    all_words, answered_word, count_word, epoch_word, hart_word, page_word, places_law, table_word,
    tvm_word,
};
pub use plans::Plan;
pub use quotes::Quote;
pub use ranges::{PageRange, RangeFault, range_of};
pub use registers::Regs;
pub use script_lines::Lines;
pub use scripts::{Fill, Line, Script, ScriptLine};
pub use sizes::{call_fits, event_fits};
pub use statuses::{Reply, Status};
pub use steps::Steps;
pub use stores::stores_law;
pub use walks::{Noted, Target, walked_to};
pub use words::{Plain, Words};
