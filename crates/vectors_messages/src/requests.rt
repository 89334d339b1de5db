// A request: what is read in it (001 T5-3 to T5-15), and the bytes that are written of it.
use crate::{versions, written};
use saying::Said;
use wire::request::Request;

pub(crate) fn show(request: Request) -> Said {
    written::add(text(request), writing::write_request(request))
}

fn text(request: Request) -> Said {
    let said = Said::nothing();
    match request {
        Request::GetFwId => said.text(b" GET_FW_ID"),
        Request::Initiate(versions) => versions::add(said.text(b" INITIATE"), versions),
        Request::Data { number, size } => said
            .text(b" DATA")
            .number(u64::from(number))
            .number(size as u64),
        Request::Validate => said.text(b" VALIDATE"),
        Request::Abort => said.text(b" ABORT"),
        Request::NotBuilt => said.text(b" not built"),
    }
}
