//! The worked example, and pseudo-random runs beside plain vectors.

ghost use Rattle.std.specs.Prelude.{◌<◌, IfSome};
ghost use Rattle.index_lists.specs.Threads.{left_count, right_count, IsLive};

use super::*;
use std::process::Abort;
use std::test::Fail;

#[test]
fn items_stand_in_both_lists(rt: HostRuntime) -> Result<(), Fail> {
    let mut threads = Threads::new(rt.alloc());
    threads.reserve(rt.alloc(), 3, 2, 2)?;
    let a = threads.push_back(0, 0);
    let b = threads.push_back(0, 1);
    assert_ne!(rt; a, b);
    let c = threads.push_back(1, 0);
    assert_ne!(rt; a, c);
    assert_ne!(rt; b, c);

    assert_eq!(rt; threads.item(c), (1, 0));
    assert_eq!(rt; threads.remove(a), (0, 0));
    assert_eq!(rt; threads.first_left(0), Some(b));
    assert_eq!(rt; threads.first_right(0), Some(c));

    let d = threads.push_back(1, 1);
    assert_ne!(rt; d, b);
    assert_ne!(rt; d, c);
    assert_eq!(rt; threads.next_left(c), Some(d));
    assert_eq!(rt; threads.next_right(b), Some(d));

    threads.clear_right(1);
    assert_eq!(rt; threads.first_right(1), None);
    assert_eq!(rt; threads.first_left(0), None);
    assert_eq!(rt; threads.first_left(1), Some(c));
    Ok(())
}

#[test]
fn a_number_is_given_again(rt: HostRuntime) -> Result<(), Fail> {
    let mut pool = Pool::new(rt.alloc());
    pool.reserve(2)?;
    assert_eq!(rt; pool.count(), 2);
    let number = pool.take();
    pool.give_back(number);
    assert_eq!(rt; pool.take(), number);
    assert_ne!(rt; pool.take(), number);
    assert_eq!(rt; pool.spare(), 0);
    Ok(())
}

/// A list and a place in it.
type Entry = (usize, usize);

/// Expects a left list to be the places of that list among the entries, in their order.
fn expect_left(rt: &impl Abort, threads: &Threads, list: usize, entries: &[Entry])
    requires { list < left_count threads.now }
{
    let mut at = threads.first_left(list);
    for entry in entries {
        if entry.0 == list {
            let Some(place) = at else {
                panic!(rt; "left list {list} ends before {}", entry.1)
            };
            assert_eq!(rt; place, entry.1, "in left list {list}");
            at = threads.next_left(place);
        }
    }
    assert!(rt; at.is_none(), "left list {list} goes on");
}

/// Expects a right list to be the places of that list among the entries, in their order.
fn expect_right(rt: &impl Abort, threads: &Threads, list: usize, entries: &[Entry])
    requires { list < right_count threads.now }
{
    let mut at = threads.first_right(list);
    for entry in entries {
        if entry.0 == list {
            let Some(place) = at else {
                panic!(rt; "right list {list} ends before {}", entry.1)
            };
            assert_eq!(rt; place, entry.1, "in right list {list}");
            at = threads.next_right(place);
        }
    }
    assert!(rt; at.is_none(), "right list {list} goes on");
}

/// The last place of a left list, some steps from its front at most.
fn place_in(threads: &Threads, list: usize, steps: usize) -> Option<usize>
    requires { list < left_count threads.now }
    ensures { IfSome result (IsLive threads.now) }
{
    let mut at = threads.first_left(list)?;
    for _ in 0..steps {
        match threads.next_left(at) {
            Some(next) => at = next,
            None => break,
        }
    }
    Some(at)
}

#[test]
fn runs_like_two_vectors(rt: HostRuntime) -> Result<(), Fail> {
    let mut threads = Threads::new(rt.alloc());
    let mut lefts: Vec<Entry> = Vec::new(rt.alloc());
    let mut rights: Vec<Entry> = Vec::new(rt.alloc());
    let mut seed = 20_u64;
    for _ in 0..200 {
        seed = seed
            .wrapping_mul(6_364_136_223_846_793_005)
            .wrapping_add(1_442_695_040_888_963_407);
        let left = ((seed >> 33) % 4) as usize;
        let right = ((seed >> 40) % 4) as usize;
        threads.reserve(rt.alloc(), 1, 4, 4)?;
        if (seed >> 47) % 3 > 0 {
            let place = threads.push_back(left, right);
            lefts.push((left, place))?;
            rights.push((right, place))?;
        } else if let Some(place) = place_in(&threads, left, right) {
            let item = threads.remove(place);
            assert!(rt; lefts.contains(&(item.0, place)));
            assert!(rt; rights.contains(&(item.1, place)));
            lefts.retain(|entry| entry.1 != place);
            rights.retain(|entry| entry.1 != place);
        }
        for list in 0..4 {
            expect_left(&rt, &threads, list, &lefts);
            expect_right(&rt, &threads, list, &rights);
        }
    }
    assert!(rt; lefts.len() > 10, "the lists grow");
    Ok(())
}
