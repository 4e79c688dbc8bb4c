use crate::{RegisterWrite, exchange, open, run_actors};
use blk_base::Room;
use std::test::Fail;

const ACTORS: u32 = 8;

const ROUNDS: u64 = 1000;

// Whether the entries of each actor are the numbers from 0 on, in their order.
fn is_in_order(log: &[RegisterWrite]) -> bool {
    let mut next = [0u64; 8];
    for entry in log {
        let Some(value) = next.get_mut(entry.actor as usize) else {
            return false;
        };
        if entry.value != *value {
            return false;
        }
        *value = value.wrapping_add(1);
    }
    next.iter().all(|value| *value == ROUNDS)
}

#[test]
fn each_of_eight_actors_keeps_its_order(rt: HostRuntime) -> Result<(), Fail> {
    let (turns, pass) = open(rt.alloc(), 7, 8000).expect(&rt, "memory");
    let pass = run_actors(&rt, &turns, pass, 0, ACTORS, ROUNDS);
    let register = turns.close(pass);
    assert!(rt; register.log().len() == 8000 && is_in_order(register.log()));
    Ok(())
}

#[test]
fn two_passes_make_an_entry_each(rt: HostRuntime) -> Result<(), Fail> {
    let (turns, mut first) = open(rt.alloc(), 7, 2).expect(&rt, "memory");
    let room = Room {
        entries: 1,
        bytes: 0,
    };
    let mut second = turns.split(&mut first, room, Some(1));
    assert!(rt; turns.front(&mut first) == 0);
    let a = exchange(
        &rt,
        &turns,
        &mut first,
        RegisterWrite {
            actor: 0,
            value: 40,
        },
    );
    let b = exchange(
        &rt,
        &turns,
        &mut second,
        RegisterWrite {
            actor: 1,
            value: 50,
        },
    );
    assert!(rt; a == 7 && b == 40 && turns.front(&mut first) == 2);
    turns.join(&mut first, second);
    assert!(rt; turns.front(&mut first) == 2);
    let register = turns.close(first);
    assert!(rt; register.value() == 50 && register.log().len() == 2);
    Ok(())
}

#[test]
fn a_turn_may_make_nothing(rt: HostRuntime) -> Result<(), Fail> {
    let (turns, mut pass) = open(rt.alloc(), 9, 1).expect(&rt, "memory");
    let turn = turns.take(&rt, &mut pass);
    let value = turn.world.value();
    turns.put(&mut pass, turn);
    assert!(rt; value == 9 && turns.front(&mut pass) == 0);
    let register = turns.close(pass);
    assert!(rt; register.log().is_empty());
    Ok(())
}
