//! Loads of what a core counts for its scopes.
use gr_event::{Enrol, LocalCounts, LocalLeft, Masters, Release, Waiter};
use gr_msg::ScopeId;
use std::alloc::{AllocError, Global};

/// The most tasks that are counted.
const MOST: u128 = 1 << 127;

fn scope(number: u64) -> ScopeId {
    ScopeId { core: 0, number }
}

/// Opens a scope at its home with one task and one waiter.
fn open(counts: &mut LocalCounts, masters: &mut Masters, scope: ScopeId) -> Result<(), AllocError> {
    if counts.count(scope).is_none() && !counts.waits(scope) {
        counts.start(scope, 1)?;
    }
    if masters.active(scope).is_none() {
        masters.start(scope)?;
    }
    if masters.active(scope).is_some() && !masters.waited(scope) {
        masters.wait(scope, Waiter::Root);
    }
    Ok(())
}

/// Whether the scope's last task, once it has ended, releases the waiter.
fn ends(counts: &mut LocalCounts, masters: &mut Masters, scope: ScopeId) -> bool {
    if counts.count(scope) != Some(1) || masters.active(scope) != Some(1) {
        return false;
    }
    matches!(counts.complete(scope, 1), LocalLeft::Zero)
        && matches!(masters.leave(scope), Release::Released { .. })
}

/// So many scopes are opened, and then ended one after another.
pub fn scopes(alloc: Global, count: u64) -> Result<String, AllocError> {
    let mut counts = LocalCounts::new(alloc);
    let mut masters = Masters::new(alloc);
    for number in 0..count {
        open(&mut counts, &mut masters, scope(number))?;
    }
    let mut released = 0u64;
    for number in 0..count {
        if ends(&mut counts, &mut masters, scope(number)) {
            released = released.wrapping_add(1);
        }
    }
    format!(in alloc; "{released} released")
}

/// Enrols one more task, where so many can be counted.
fn enrol(counts: &mut LocalCounts, scope: ScopeId, slot: u64) -> Result<bool, AllocError> {
    if counts.count(scope).unwrap_or(0) >= MOST {
        return Ok(false);
    }
    let is_counted = matches!(counts.enrol(scope, slot)?, Enrol::Counted);
    Ok(is_counted)
}

/// How many tasks are counted: two that wait until their scope is active, and one that comes after them.
fn enrol_three(counts: &mut LocalCounts, scope: ScopeId) -> Result<u64, AllocError> {
    let mut counted = 0u64;
    for slot in [4, 7] {
        if enrol(counts, scope, slot)? {
            counted = counted.wrapping_add(1);
        }
    }
    if counts.waits(scope) {
        counted = counted.wrapping_add(counts.acked(scope)?.len() as u64);
    }
    if enrol(counts, scope, 9)? {
        counted = counted.wrapping_add(1);
    }
    Ok(counted)
}

/// Three tasks are enrolled in each of so many scopes.
pub fn enrolments(alloc: Global, count: u64) -> Result<String, AllocError> {
    let mut counts = LocalCounts::new(alloc);
    let mut enrolled = 0u64;
    for number in 0..count {
        enrolled = enrolled.wrapping_add(enrol_three(&mut counts, scope(number))?);
    }
    format!(in alloc; "{enrolled} enrolled")
}

/// One more task, and what is answered.
fn tell_enrol(
    text: &mut String,
    counts: &mut LocalCounts,
    scope: ScopeId,
    slot: u64,
) -> Result<(), AllocError> {
    if counts.count(scope).unwrap_or(0) >= MOST {
        return Ok(());
    }
    let word = match counts.enrol(scope, slot)? {
        Enrol::Counted => " counted",
        Enrol::Ask => " ask",
        Enrol::Waiting => " waiting",
    };
    text.push_str(word)?;
    Ok(())
}

/// One task less, and what is answered.
fn tell_complete(
    text: &mut String,
    counts: &mut LocalCounts,
    scope: ScopeId,
) -> Result<(), AllocError> {
    let Some(count) = counts.count(scope) else {
        return Ok(());
    };
    if count < 1 {
        return Ok(());
    }
    let word = match counts.complete(scope, 1) {
        LocalLeft::Zero => " zero",
        LocalLeft::More => " more",
    };
    text.push_str(word)?;
    Ok(())
}

/// The slots that waited until the core may count.
fn tell_acked(
    alloc: Global,
    text: &mut String,
    counts: &mut LocalCounts,
    scope: ScopeId,
) -> Result<(), AllocError> {
    if !counts.waits(scope) {
        return Ok(());
    }
    let slots = counts.acked(scope)?;
    for slot in slots.as_slice() {
        text.push_str(format!(in alloc; " slot {slot}")?.as_str())?;
    }
    Ok(())
}

/// One core less is active, and what is answered.
fn tell_leave(text: &mut String, masters: &mut Masters, scope: ScopeId) -> Result<(), AllocError> {
    let Some(active) = masters.active(scope) else {
        return Ok(());
    };
    if active < 1 {
        return Ok(());
    }
    let word = match masters.leave(scope) {
        Release::Held => " held",
        Release::Released { .. } => " released",
    };
    text.push_str(word)?;
    Ok(())
}

/// What a scope's counts and master answer, one after another: tasks enrol and end, slots wait for the core and are
/// counted, and cores enrol and leave.
pub fn answers(alloc: Global) -> Result<String, AllocError> {
    let mut counts = LocalCounts::new(alloc);
    let mut masters = Masters::new(alloc);
    let scope = scope(1);
    open(&mut counts, &mut masters, scope)?;
    let mut text = String::from_str(alloc, "answers")?;
    tell_enrol(&mut text, &mut counts, scope, 0)?;
    tell_complete(&mut text, &mut counts, scope)?;
    tell_complete(&mut text, &mut counts, scope)?;
    tell_enrol(&mut text, &mut counts, scope, 4)?;
    tell_enrol(&mut text, &mut counts, scope, 7)?;
    tell_acked(alloc, &mut text, &mut counts, scope)?;
    if masters.active(scope) == Some(1) {
        masters.enrol(scope);
    }
    tell_leave(&mut text, &mut masters, scope)?;
    tell_leave(&mut text, &mut masters, scope)?;
    Ok(text)
}
