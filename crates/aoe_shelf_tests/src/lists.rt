use aoe_lists::{ConfigCommand, Lists, MaskCommand, MaskError, ReserveCommand};

#[test]
fn words_have_their_codes(rt: HostRuntime) {
    let codes = [
        ConfigCommand::TestPrefix.code(),
        ReserveCommand::ForceSet.code(),
        MaskCommand::Edit.code(),
        MaskError::ListFull.code(),
    ];
    assert!(rt; codes == [2, 2, 1, 3] && Lists::default() == Lists::new());
}
