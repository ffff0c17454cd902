//! Why a VPE may not use an endpoint.

use sem_dtu::UseFault;
use sem_msg::Code;
use std::test::Fail;

#[test]
fn a_fault_has_its_text_and_code(rt: HostRuntime) -> Result<(), Fail> {
    for (fault, code, text) in [
        (
            UseFault::Unbound,
            Code::Unbound,
            "the endpoint is not bound",
        ),
        (
            UseFault::Rights,
            Code::Rights,
            "the endpoint does not allow it",
        ),
        (
            UseFault::Range,
            Code::Range,
            "it is out of the range of the endpoint",
        ),
    ] {
        let printed = format!(in rt.alloc(); "{fault}")?;
        assert_eq!(rt; Code::from(fault), code);
        assert_eq!(rt; printed.as_str(), text);
    }
    Ok(())
}
