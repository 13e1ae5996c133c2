ghost use Rattle.std.specs.Prelude.{◌≡◌, ℕ, ◌+◌, ◌<◌, ◌^◌, ◌∷◌, ◌++◌, [], IfOk, OnOk, OnErr};
ghost use Rattle.revision_lock.specs.Passes.{IsPassOf, own_of, seats_of, share_of};

use super::*;
use std::alloc::{AllocError, Global};
use std::sync::Wait;
use std::test::*;
use std::thread::{Threads, join};

/// Numbers in the order in which they were added, under a name.
#[derive(Drop)]
struct Numbers {
    name: u64,
    items: Vec<u64>,
}

impl Chronicle for Numbers {
    type Start = u64;

    type Entry = u64;

    ghost start = { λ n. n.name };

    ghost list = { λ n. n.items.items };

    fn entries(&self) -> u64 {
        self.items.len() as u64
    }
}

impl Numbers {
    fn add(&mut self, x: u64) -> Result<(), AllocError>
        ensures ok { OnOk result (self.new.items.items ≡ self.old.items.items ++ x ∷ []) }
        ensures err { OnErr result (self.new.items.items ≡ self.old.items.items) }
        ensures name { self.new.name ≡ self.old.name }
    {
        self.items.push(x)?;
        Ok(())
    }
}

// One turn, which adds x.
fn add<R: Wait>(
    rt: &R,
    lock: &TurnLock<Numbers>,
    pass: &mut Pass<Numbers>,
    x: u64,
) -> Result<(), AllocError>
    requires { IsPassOf lock.now pass.old }
    ensures pass { IsPassOf lock.now pass.new }
    ensures share { share_of pass.new ≡ share_of pass.old }
    ensures ok { OnOk result ((place : ℕ) × (own_of pass.new ≡ own_of pass.old ++ (place, x) ∷ [])) }
    ensures err { OnErr result (own_of pass.new ≡ own_of pass.old) }
{
    let mut turn = lock.enter(rt, pass);
    match turn.value().add(x) {
        Ok(()) => {
            turn.note();
            turn.leave();
            Ok(())
        }
        Err(error) => {
            turn.leave();
            Err(error)
        }
    }
}

// As many turns as `count`, which add the numbers from `from` on.
fn fill<R: Wait>(
    rt: &R,
    lock: &TurnLock<Numbers>,
    mut pass: Pass<Numbers>,
    from: u64,
    count: u64,
) -> Result<Pass<Numbers>, AllocError>
    requires { IsPassOf lock.now pass × (from + count < 2 ^ 64) }
    ensures { IfOk result (λ p. IsPassOf lock.now p × (share_of p ≡ share_of pass)) }
{
    for i in 0..count {
        add(rt, lock, &mut pass, from + i)?;
    }
    Ok(pass)
}

// Two threads take 1,000 turns each. What they noted is then the one pass's.
fn fill_by_two<R: Threads + Wait + Sync>(
    rt: &R,
    lock: &TurnLock<Numbers>,
    one: Pass<Numbers>,
    other: Pass<Numbers>,
    from: u64,
) -> Result<Pass<Numbers>, AllocError>
    requires { IsPassOf lock.now one × IsPassOf lock.now other × (from < 2 ^ 32) }
    ensures { IfOk result (λ p. IsPassOf lock.now p × (share_of p ≡ share_of one + share_of other)) }
{
    let (one, other) = join(
        rt,
        move || -> Result<Pass<Numbers>, AllocError>
            requires { IsPassOf lock.now one × (from < 2 ^ 32) }
            ensures { IfOk result (λ p. IsPassOf lock.entry.now p × (share_of p ≡ share_of one)) }
        { fill(rt, lock, one, from, 1000) },
        move || -> Result<Pass<Numbers>, AllocError>
            requires { IsPassOf lock.now other × (from < 2 ^ 32) }
            ensures { IfOk result (λ p. IsPassOf lock.entry.now p × (share_of p ≡ share_of other)) }
        { fill(rt, lock, other, from + 1000, 1000) },
    );
    let mut one = one?;
    lock.join_pass(&mut one, other?);
    Ok(one)
}

fn fill_by_four<R: Threads + Wait + Sync>(
    rt: &R,
    lock: &TurnLock<Numbers>,
    mut one: Pass<Numbers>,
) -> Result<Pass<Numbers>, AllocError>
    requires { IsPassOf lock.now one × (share_of one ≡ 4) }
    ensures { IfOk result (λ p. IsPassOf lock.now p × (share_of p ≡ 4)) }
{
    let two = lock.split_pass(&mut one);
    let three = lock.split_pass(&mut one);
    let four = lock.split_pass(&mut one);
    let (left, right) = join(
        rt,
        move || -> Result<Pass<Numbers>, AllocError>
            requires { IsPassOf lock.now one × IsPassOf lock.now two × (share_of one ≡ 1) × (share_of two ≡ 1) }
            ensures { IfOk result (λ p. IsPassOf lock.entry.now p × (share_of p ≡ 2)) }
        { fill_by_two(rt, lock, one, two, 0) },
        move || -> Result<Pass<Numbers>, AllocError>
            requires { IsPassOf lock.now three × IsPassOf lock.now four × (share_of three ≡ 1) × (share_of four ≡ 1) }
            ensures { IfOk result (λ p. IsPassOf lock.entry.now p × (share_of p ≡ 2)) }
        { fill_by_two(rt, lock, three, four, 2000) },
    );
    let mut left = left?;
    lock.join_pass(&mut left, right?);
    Ok(left)
}

// A lock over no numbers.
fn new_lock(alloc: Global, seats: u32) -> Result<(TurnLock<Numbers>, Pass<Numbers>), AllocError>
    requires { 0 < seats }
    ensures { IfOk result (λ r. IsPassOf r.0 r.1 × (seats_of r.0 ≡ seats) × (share_of r.1 ≡ seats)) }
{
    let numbers = Numbers {
        name: 7,
        items: Vec::new(alloc),
    };
    match TurnLock::new(alloc, numbers, seats) {
        Ok(made) => Ok(made),
        Err((_, error)) => Err(error),
    }
}

// How many numbers of each thousand stand there, as far as they stand in their order. A thread adds the numbers of one thousand.
fn thousands(numbers: &[u64]) -> [u64; 4] {
    let mut counts = [0u64; 4];
    for x in numbers {
        let thread = (*x / 1000) as usize;
        if thread < 4 && *x % 1000 == counts[thread] && counts[thread] < 1000 {
            counts[thread] += 1;
        }
    }
    counts
}

#[test]
fn one_thread_adds_in_its_order(rt: HostRuntime) -> Result<(), Fail> {
    let (lock, pass) = new_lock(rt.alloc(), 1)?;
    let pass = fill(&rt, &lock, pass, 0, 1000)?;
    let numbers = lock.close(pass);
    assert_eq!(rt; numbers.name, 7);
    assert_eq!(rt; numbers.items.len(), 1000);
    assert_eq!(rt; thousands(numbers.items.as_slice()), [1000, 0, 0, 0]);
    Ok(())
}

#[test]
fn two_threads_add_each_number_once(rt: HostRuntime) -> Result<(), Fail> {
    let (lock, mut pass) = new_lock(rt.alloc(), 2)?;
    let other = lock.split_pass(&mut pass);
    let pass = fill_by_two(&rt, &lock, pass, other, 0)?;
    let numbers = lock.close(pass);
    assert_eq!(rt; numbers.items.len(), 2000);
    assert_eq!(rt; thousands(numbers.items.as_slice()), [1000, 1000, 0, 0]);
    Ok(())
}

#[test]
fn four_threads_add_each_number_once(rt: HostRuntime) -> Result<(), Fail> {
    let (lock, pass) = new_lock(rt.alloc(), 4)?;
    let pass = fill_by_four(&rt, &lock, pass)?;
    let numbers = lock.close(pass);
    assert_eq!(rt; numbers.items.len(), 4000);
    assert_eq!(rt;
        thousands(numbers.items.as_slice()),
        [1000, 1000, 1000, 1000]
    );
    Ok(())
}
