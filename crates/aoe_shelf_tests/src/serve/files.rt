use aoe_keep::MountRefusal;
use aoe_serve::ExportRefusal;
use std::test::Fail;

fn of_keep(refusal: MountRefusal) -> ExportRefusal {
    ExportRefusal::Keep { slot: 3, refusal }
}

#[test]
fn says_why_nothing_was_run(rt: HostRuntime) -> Result<(), Fail> {
    let cases = [
        (ExportRefusal::NoMemory, "no memory"),
        (
            of_keep(MountRefusal::TooSmall { sectors: 15 }),
            "keep of slot 3: 15 sectors, 16 needed",
        ),
        (
            of_keep(MountRefusal::Failed),
            "keep of slot 3: a device call failed",
        ),
        (
            of_keep(MountRefusal::BadKeep { slot: 1 }),
            "keep of slot 3: slot 1 holds no lists",
        ),
    ];
    for (refusal, told) in &cases {
        let text = format!(in rt.alloc(); "{refusal}")?;
        assert!(rt; text.as_str() == *told);
    }
    Ok(())
}
