use crate::waiting::Waiting;
use mio::{Token, Waker};
use outside::*;
use std::sync::Arc;
use std::test::Fail;
use std::time::Duration;

/// Whether an alarm's copy ends a wait.
fn ends_a_wait(rt: HostRuntime, waiting: &mut Waiting) -> Result<bool, Fail> {
    let waker = Waker::new(waiting.registry(), Token(1))?;
    let alarm = Alarm::new(Arc::new(rt.alloc(), waker)?);
    let copy = alarm.try_clone()?;
    copy.ring();
    Ok(!copy.is_silent() && waiting.wait(Duration::from_secs(10))?)
}

#[test]
fn an_alarm_ends_the_wait(rt: HostRuntime) -> Result<(), Fail> {
    assert!(rt; ends_a_wait(rt, &mut Waiting::new(rt)?)?);
    let silent = Alarm::silent();
    silent.ring();
    assert!(rt; silent.try_clone()?.is_silent());
    Ok(())
}
