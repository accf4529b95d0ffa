// Where the limits of a check lie, and a slip that is out.
use binary::Small;
use calls::{Check, First, Returned};
use refusal::{Limit, Refusal};
use station::Card;
use std::test::Fail;

static SIGNATURES: [u32; 255] = [7; 255];

// Opens a check of four stations, over as many pages of one card as it has.
fn open(pages: u32, bound: u32) -> Result<Check<Small, First>, Refusal> {
    let mut tally = [0; 4 * (255 + 128)];
    let own = Card::new(&SIGNATURES[..(pages as usize).min(255)])?;
    Check::open(1, 4, pages, bound, &own, &mut tally)
}

#[test]
fn limits(rt: HostRuntime) {
    assert_eq!(rt; open(255, 1).err(), None);
    assert_eq!(rt; open(256, 1).err(), Some(Refusal::Size(Limit::Pages)));
    assert_eq!(rt; open(255, 64).err(), None);
    assert_eq!(rt; open(255, 65).err(), Some(Refusal::Size(Limit::Bound)));
}

// A second slip and weighing are refused while a slip is out; the check goes on.
#[test]
fn slip_again(rt: HostRuntime) -> Result<(), Fail> {
    let mut tally = [0; 4 * (255 + 128)];
    let mut request = [0; 4];
    let mut check = open(3, 1)?;
    let slip = check.slip(2, &mut request)?;
    match check.slip(2, &mut request) {
        Ok(second) => {
            let _ = check.return_slip(second);
            panic!(rt; "a second slip");
        }
        Err(refusal) => assert_eq!(rt; refusal, Refusal::Out(2)),
    }
    let mut check = match check.weigh(&mut tally) {
        Ok(_) => panic!(rt; "weighed with a slip out"),
        Err(declined) => {
            assert_eq!(rt; declined.refusal, Refusal::Out(2));
            declined.check
        }
    };
    assert_eq!(rt; check.return_slip(slip)?, Returned::Blank);
    let slip = check.slip(2, &mut request)?;
    check.return_slip(slip)?;
    assert_eq!(rt; check.counts().blank, 2);
    Ok(())
}
