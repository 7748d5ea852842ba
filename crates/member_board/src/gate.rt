//! Gates, which run before and after each call.

use std::sync::Wait;

/// `before` runs before a member's k-th call, and `after` when that was answered, a fault included. k counts from 1.
/// A gate may hold a member back, so that calls of several members meet in a wanted order.
pub trait Gate {
    fn before<R: Wait>(&self, rt: &R, member: u8, k: u32);

    fn after<R: Wait>(&self, rt: &R, member: u8, k: u32);
}

/// The gate that holds nobody back.
#[derive(Clone, Copy, Debug)]
pub struct OpenGate;

impl Gate for OpenGate {
    fn before<R: Wait>(&self, _rt: &R, _member: u8, _k: u32) {}

    fn after<R: Wait>(&self, _rt: &R, _member: u8, _k: u32) {}
}
