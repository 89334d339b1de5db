// A response: what is read in it (001 T5-16 to T5-28), and the bytes that are written of it.
use crate::{versions, written};
use saying::Said;
use wire::response::{Identity, Response};

pub(crate) fn show(response: Response) -> Said {
    written::add(text(response), writing::write_response(response))
}

fn text(response: Response) -> Said {
    match response {
        Response::GetFwId { status, identity } => fields(status, identity),
        Response::Initiate { status, wait, size } => {
            three(b" INITIATE", status, wait, u64::from(size))
        }
        Response::Data {
            status,
            wait,
            number,
        } => three(b" DATA", status, wait, u64::from(number)),
        Response::Validate {
            status,
            wait,
            success,
        } => three(b" VALIDATE", status, wait, u64::from(success)),
        Response::NotBuilt => Said::nothing().text(b" not built"),
    }
}

fn three(name: &[u8], status: u8, wait: u8, last: u64) -> Said {
    Said::nothing()
        .text(name)
        .number(u64::from(status))
        .number(u64::from(wait))
        .number(last)
}

// 001 T5-18, in its order.
fn fields(status: u8, i: Identity) -> Said {
    let before = Said::nothing()
        .text(b" GET_FW_ID")
        .number(u64::from(status))
        .number(u64::from(i.vendor))
        .number(u64::from(i.product))
        .number(u64::from(i.hardware))
        .number(u64::from(i.silicon));
    versions::add(before, i.versions)
        .number(u64::from(i.bank))
        .number(u64::from(i.flags1))
        .number(u64::from(i.flags2))
        .number(u64::from(i.flags3))
        .number(u64::from(i.flags4))
}
