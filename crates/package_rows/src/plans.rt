//! Sums at the limits.

use layout_plan::{PlanFault, Sizes, plan_of};
use std::test::Fail;

fn sizes(code: u16, init: u16, bss: u16) -> Sizes {
    Sizes { code, init, bss }
}

#[test]
fn limits(rt: HostRuntime) -> Result<(), Fail> {
    let full = [sizes(7680, 0, 0); 16];
    assert!(rt; plan_of(&full).is_ok());
    let mut over = full;
    over[3].code = 7682;
    assert_eq!(rt; plan_of(&over), Err(PlanFault::Flash(122_882)));
    assert!(rt; plan_of(&[sizes(0, 2, 3582)]).is_ok());
    assert_eq!(rt; plan_of(&[sizes(0, 2, 3584)]), Err(PlanFault::Ram(3586)));
    assert_eq!(rt;
        plan_of(&[sizes(65534, 65534, 65534)]),
        Err(PlanFault::Flash(131_068))
    );
    Ok(())
}

#[test]
fn two_components(rt: HostRuntime) -> Result<(), Fail> {
    let plan = plan_of(&[sizes(18, 8, 2), sizes(2, 4, 6)])
        .ok()
        .ok_or("a plan")?;
    assert_eq!(rt; [plan.code[1], plan.load[0], plan.load[1]], [18, 20, 28]);
    assert_eq!(rt;
        [plan.ram[0], plan.ram[1], plan.bss[0], plan.bss[1]],
        [0x800100, 0x800108, 0x80010C, 0x80010E]
    );
    Ok(())
}
