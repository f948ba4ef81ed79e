// Pages, boards, timers and harts, and where ops act.
pub mod boards;
pub mod harts;
pub mod pages;
pub mod places;
mod reading;
mod telling;
pub mod timers;
