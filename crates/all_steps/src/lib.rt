//! The encoding of steps whose members run in every order (all-steps: Rintanen, Heljanko and Niemelä 2006).
//!
//! `AllForm` is `Placed` of step_encoding over both orders of all actions (`BothWays`). Its laws stand in step_laws; that every order of an
//! all-step's members is executed is `each_order` of gt_core.
#![tactic(auto)]

pub mod form;
