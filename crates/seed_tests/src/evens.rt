// A customer's seed.
use crate::build::*;
use crate::reads::*;
use even::even::Even;
use std::test::Fail;
use token_de::custom::Custom;

#[test]
fn even_integers_are_taken_and_odd_ones_are_a_data_fault(rt: HostRuntime) -> Result<(), Fail> {
    let seed = Custom { seed: Even };
    for value in [0, 4, u64::MAX - 1] {
        check_taken(&rt, &seed, &one(integer(value)), value, 1)?;
        check_refused(&rt, &seed, &one(integer(value + 1)), (17, 0, 100))?;
    }
    check_refused(&rt, &seed, &alone(integer(3)), (17, 0, 100))?;
    check_none(
        &rt,
        &seed,
        &[
            great_integer(0),
            float(0),
            ident(0, 4),
            string(0, 4),
            group(0, 3, 0),
        ],
        3,
    )?;
    check_none_behind_minus(&rt, &seed, &[integer(4), integer(3)], 3)
}
