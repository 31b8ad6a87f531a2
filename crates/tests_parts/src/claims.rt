//! Claims on several threads, and the order in which one claim gains blocks.

ghost use Rattle.std.specs.Prelude.{◌≡◌, ◌+◌, ◌^◌, ◌<◌, ◌≤◌, ◌++◌, IfSome};
ghost use Rattle.bv_claims.specs.Blocks.{IsPartOf};
ghost use Rattle.bv_claims.specs.Tokens.{boss_owned, IsBossOf, IsGrantOf, IsClaimedOf};

use bv_claims::{Boss, Claimed, Claims, Grant};
use std::alloc::Global;
use std::process::Abort;
use std::test::Fail;
use std::thread;
use std::thread::Threads;

// A grant whose need and start are tested first.
fn granted(
    rt: &impl Abort,
    alloc: Global,
    claims: &Claims,
    boss: &mut Boss,
    need: u64,
    start: u64,
) -> Grant
    requires { IsBossOf claims.now boss.old }
    ensures boss { IsBossOf claims.now boss.new }
    ensures grant { IsGrantOf claims.now result }
{
    assert!(rt; need <= boss.room() && 1 <= start && start < claims.blocks());
    boss.grant(alloc, claims, need, start)
        .expect(rt, "memory for a grant")
}

// Claims a grant that lies in a place which a thread is lent.
fn claim_lent(claims: &Claims, place: &mut Option<Grant>) -> Option<Claimed>
    requires { IfSome place.old (λ g. IsGrantOf claims.now g) }
    ensures none { place.new ≡ None }
    ensures claimed { IfSome result (λ c. IsClaimedOf claims.now c) }
{
    match place.take() {
        Some(grant) => Some(claims.claim(grant)),
        None => None,
    }
}

// A place from which the grant was taken.
fn is_spent(place: Option<Grant>)
    requires { place ≡ None }
{
    match place {
        Some(_grant) => unreachable!(),
        None => {}
    }
}

// Two claims of one table, on two threads.
fn claim_twice<R: Threads + Abort + Sync>(
    rt: &R,
    claims: &Claims,
    first: Grant,
    second: Grant,
) -> (Claimed, Claimed)
    requires { IsGrantOf claims.now first × IsGrantOf claims.now second }
    ensures { IsClaimedOf claims.now result.0 × IsClaimedOf claims.now result.1 }
{
    let mut first = Some(first);
    let mut second = Some(second);
    let (one, other) = thread::join_mut(
        rt,
        &mut || claim_lent(claims, &mut first),
        &mut || claim_lent(claims, &mut second),
    );
    is_spent(first);
    is_spent(second);
    (one.expect(rt, "a claim"), other.expect(rt, "a claim"))
}

#[derive(Drop)]
struct TwoClaims {
    blocks: u64,
    words: u64,
    first: (u64, u64),
    second: (u64, u64),
}

#[test]
fn two_claims_at_once_share_no_block_and_make_up_all(rt: HostRuntime) -> Result<(), Fail> {
    let rows = [
        TwoClaims {
            blocks: 9,
            words: 1,
            first: (5, 1),
            second: (3, 1),
        },
        TwoClaims {
            blocks: 130,
            words: 3,
            first: (65, 1),
            second: (64, 66),
        },
    ];
    for row in rows {
        check_two_claims(&rt, rt.alloc(), &row)?;
    }
    Ok(())
}

fn check_two_claims<R: Threads + Abort + Sync>(
    rt: &R,
    alloc: Global,
    row: &TwoClaims,
) -> Result<(), Fail> {
    assert!(rt; 2 <= row.blocks && row.blocks <= 1 << 22);
    let (claims, mut boss) = Claims::new(alloc, row.blocks)?;
    assert_eq!(rt; claims.words(), row.words);
    assert_eq!(rt; boss.room(), row.blocks - 1);
    let first = granted(rt, alloc, &claims, &mut boss, row.first.0, row.first.1);
    let second = granted(rt, alloc, &claims, &mut boss, row.second.0, row.second.1);
    assert_eq!(rt; boss.room(), 0);
    let (first, second) = claim_twice(rt, &claims, first, second);
    let (first, second) = take_both(&claims, &mut boss, first, second);
    let mut all = first.as_slice().to_vec(alloc)?;
    all.extend_from_slice(second.as_slice())?;
    all.sort_unstable();
    let expected: Vec<u64> = (1..row.blocks).collect(alloc)?;
    assert_eq!(rt; all.as_slice(), expected.as_slice());
    free_both(&claims, &mut boss, first.as_slice(), second.as_slice());
    assert_eq!(rt; boss.room(), row.blocks - 1);
    Ok(())
}

fn take_both(
    claims: &Claims,
    boss: &mut Boss,
    first: Claimed,
    second: Claimed,
) -> (Vec<u64>, Vec<u64>)
    requires { IsBossOf claims.now boss.old
        × IsClaimedOf claims.now first × IsClaimedOf claims.now second }
    ensures table { IsBossOf claims.now boss.new }
    ensures owned { IsPartOf (result.0.items ++ result.1.items) (boss_owned boss.new) }
{
    let one = boss.take(claims, first);
    let other = boss.take(claims, second);
    (one, other)
}

fn free_both(claims: &Claims, boss: &mut Boss, first: &[u64], second: &[u64])
    requires table { IsBossOf claims.now boss.old }
    requires owned { IsPartOf (first.now ++ second.now) (boss_owned boss.old) }
{
    boss.free(claims, first);
    boss.free(claims, second);
}

#[derive(Drop)]
struct Order {
    blocks: u64,
    earlier: (u64, u64),
    later: (u64, u64),
    gained: &'static [u64],
    taken: &'static [u64],
}

#[test]
fn a_claim_gains_from_its_start_on_and_the_boss_answers_in_rising_order(
    rt: HostRuntime,
) -> Result<(), Fail> {
    let rows = [
        Order {
            blocks: 2,
            earlier: (0, 1),
            later: (1, 1),
            gained: &[1],
            taken: &[1],
        },
        Order {
            blocks: 9,
            earlier: (4, 2),
            later: (4, 4),
            gained: &[6, 7, 8, 1],
            taken: &[1, 6, 7, 8],
        },
        Order {
            blocks: 64,
            earlier: (60, 1),
            later: (3, 63),
            gained: &[63, 61, 62],
            taken: &[61, 62, 63],
        },
        Order {
            blocks: 130,
            earlier: (64, 64),
            later: (4, 63),
            gained: &[63, 128, 129, 1],
            taken: &[1, 63, 128, 129],
        },
        Order {
            blocks: 130,
            earlier: (129, 7),
            later: (0, 5),
            gained: &[],
            taken: &[],
        },
    ];
    for row in rows {
        check_order(&rt, rt.alloc(), &row)?;
    }
    Ok(())
}

fn check_order(rt: &impl Abort, alloc: Global, row: &Order) -> Result<(), Fail> {
    assert!(rt; 2 <= row.blocks && row.blocks <= 1 << 22);
    let (claims, mut boss) = Claims::new(alloc, row.blocks)?;
    assert_eq!(rt; claims.blocks(), row.blocks);
    let earlier = granted(rt, alloc, &claims, &mut boss, row.earlier.0, row.earlier.1);
    let _ = boss.take(&claims, claims.claim(earlier));
    let later = granted(rt, alloc, &claims, &mut boss, row.later.0, row.later.1);
    let later = claims.claim(later);
    assert_eq!(rt; later.gained(), row.gained);
    assert_eq!(rt; later.left(), 0);
    assert_eq!(rt; boss.take(&claims, later).as_slice(), row.taken);
    Ok(())
}

#[test]
fn blocks_that_are_held_leave_the_room_until_they_are_freed(rt: HostRuntime) -> Result<(), Fail> {
    let (claims, mut boss) = Claims::new(rt.alloc(), 9)?;
    boss.hold(rt.alloc(), &claims, &[2, 5])?;
    assert_eq!(rt; boss.room(), 6);
    boss.hold_run(&claims, 6, 3);
    assert_eq!(rt; boss.room(), 3);
    boss.free_run(&claims, 7, 2);
    let rest = granted(&rt, rt.alloc(), &claims, &mut boss, 5, 1);
    let rest = boss.take(&claims, claims.claim(rest));
    assert_eq!(rt; rest.as_slice(), [1, 3, 4, 7, 8].as_slice());
    Ok(())
}
