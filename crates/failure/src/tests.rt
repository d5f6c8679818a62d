use super::*;
use anyhow::anyhow;
use std::test::Fail;

#[test]
fn an_error_prints_as_its_text_in_quotes(rt: HostRuntime) -> Result<(), Fail> {
    let failure = Failure::new(rt.alloc(), anyhow!("there is no card in the reader"));
    assert!(rt; failure.text.is_ok());
    let printed = format!(in rt.alloc(); "{failure:?}")?;
    assert_eq!(rt; printed.as_str(), "\"there is no card in the reader\"");
    Ok(())
}
