// Certificates, and what is to be said of texts.

use crate::contexts::context;
use plan_cert::{Verdict, certify, check_cert};
use std::alloc::Global;
use std::test::Fail;
use tree_model::{Ctx, divides};
use worked_rows::{check, halves, spelled};

// What is said of a text.
fn verdict(alloc: Global, c: &Ctx, text: &str) -> Result<String, Fail> {
    if !divides(c) {
        return Ok("no divide".to_string(alloc)?);
    }
    match check_cert(alloc, c, text.as_bytes())? {
        Verdict::Least(cost) => Ok(format!(in alloc; "least {cost}")?),
        Verdict::Unread => Ok(format!(in alloc; "unread")?),
        Verdict::Wrong { size, given, found } => {
            Ok(format!(in alloc; "wrong {size} {given} {found}")?)
        }
    }
}

// A request, its certificate, and what is said of it. Costs are by hand and by the reference in checks/reference/.
const CERTIFICATES: &str = "\
dft 4 mod 17 root 4|{\"rows\":[[2,2,\"leaf\",0,0],[4,9,\"ct\",2,2]],\"size\":4,\"version\":2,\"weight\":1}~|least 9
dft 4 mod 17 root 4 procs 2|{\"rows\":[[2,2,\"leaf\",0,0],[4,12,\"ct\",2,2]],\"size\":4,\"version\":2,\"weight\":1}~|least 12
dft 4 mod 17 root 4 lanes 2|{\"rows\":[[2,2,\"leaf\",0,0],[4,12,\"ct\",2,2]],\"size\":4,\"version\":2,\"weight\":1}~|least 12
dft 1 mod 2 root 1|{\"rows\":[[1,0,\"leaf\",0,0]],\"size\":1,\"version\":2,\"weight\":1}~|least 0
dft 6 mod 7 root 3|{\"rows\":[[2,2,\"leaf\",0,0],[3,10,\"leaf\",0,0],[6,26,\"gt\",2,3]],\"size\":6,\"version\":2,\"weight\":1}~|least 26
wht 4 mod 5|{\"rows\":[[2,2,\"leaf\",0,0],[4,8,\"split\",2,2]],\"size\":4,\"version\":2,\"weight\":1}~|least 8
wht 4 mod 5 lanes 2|{\"rows\":[[2,2,\"leaf\",0,0],[4,8,\"split\",2,2]],\"size\":4,\"version\":2,\"weight\":1}~|least 8
dft 4 mod 17 root 4 weight 5|{\"rows\":[[2,2,\"leaf\",0,0],[4,13,\"ct\",2,2]],\"size\":4,\"version\":2,\"weight\":5}~|least 13
dft 6 mod 7 root 3 weight 5|{\"rows\":[[2,2,\"leaf\",0,0],[3,26,\"leaf\",0,0],[6,58,\"gt\",2,3]],\"size\":6,\"version\":2,\"weight\":5}~|least 58
idft 4 mod 17 root 4|{\"rows\":[[2,2,\"leaf\",0,0],[4,13,\"ct\",2,2]],\"size\":4,\"version\":2,\"weight\":1}~|least 13
idft 1 mod 17 root 1 weight 3|{\"rows\":[[1,3,\"leaf\",0,0]],\"size\":1,\"version\":2,\"weight\":3}~|least 3
idft 12 mod 13 root 2 weight 2|{\"rows\":[[2,2,\"leaf\",0,0],[3,14,\"leaf\",0,0],[4,10,\"ct\",2,2],[6,34,\"gt\",2,3],[12,110,\"gt\",3,4]],\"size\":12,\"version\":2,\"weight\":2}~|least 110
dft 2x2 mod 17 root 16x16|[{\"rows\":[[2,2,\"leaf\",0,0]],\"size\":2,\"version\":2,\"weight\":1},{\"rows\":[[2,2,\"leaf\",0,0]],\"size\":2,\"version\":2,\"weight\":1}]~|least 8
dft 2x3 mod 7 root 6x2 weight 5|[{\"rows\":[[2,2,\"leaf\",0,0]],\"size\":2,\"version\":2,\"weight\":5},{\"rows\":[[3,26,\"leaf\",0,0]],\"size\":3,\"version\":2,\"weight\":5}]~|least 58
dft 4x2x2 mod 17 root 4x16x1 procs 2|[{\"rows\":[[2,2,\"leaf\",0,0],[4,9,\"ct\",2,2]],\"size\":4,\"version\":2,\"weight\":1},{\"rows\":[[2,2,\"leaf\",0,0]],\"size\":2,\"version\":2,\"weight\":1},{\"rows\":[[2,2,\"leaf\",0,0]],\"size\":2,\"version\":2,\"weight\":1}]~|least 68
";

// Whether the text is the certificate of the context.
fn is_certificate(alloc: Global, c: &Ctx, text: &str) -> Result<bool, Fail> {
    if !divides(c) {
        return Err(Fail::from("sizes that divide"));
    }
    Ok(certify(alloc, c)?.as_slice() == text.as_bytes())
}

fn certificate_verdict(alloc: Global, c: &Ctx, text: &str) -> Result<String, Fail> {
    if is_certificate(alloc, c, text)? {
        verdict(alloc, c, text)
    } else {
        Ok("another certificate".to_string(alloc)?)
    }
}

// What is said of a text, where it is the request's certificate.
fn certificate_answer(alloc: Global, question: &str) -> Result<String, Fail> {
    let (request, text) = halves(question)?;
    let c = context(request)?;
    certificate_verdict(alloc, &c, &spelled(alloc, text)?)
}

#[test]
fn certificates(rt: HostRuntime) -> Result<(), Fail> {
    check(rt.alloc(), CERTIFICATES, certificate_answer)
}

// Rows of a certificate of `dft 4 mod 17 root 4`, what stands between their list and the version, the version, and what is
// said.
const FOUR: &str = "\
[2,2,\"leaf\",0,0],[4,9,\"ct\",2,2]||1|least 9
[2, 2, \"leaf\", 0, 0], [4, 9, \"ct\", 2, 2]| | 1|least 9
[2,2,\"leaf\",0,0],[4,8,\"ct\",2,2]||1|wrong 4 8 9
[2,3,\"leaf\",0,0],[4,9,\"ct\",2,2]||1|wrong 2 3 2
[2,2,\"leaf\",0,0],[4,9,\"leaf\",0,0]||1|wrong 4 9 16
[2,2,\"leaf\",0,0],[4,16,\"leaf\",0,0]||1|wrong 4 16 9
[2,2,\"leaf\",0,0],[4,18446744073709551615,\"ct\",2,2]||1|wrong 4 18446744073709551615 9
[2,2,\"leaf\",0,0],[4,18446744073709551616,\"ct\",2,2]||1|unread
[2,2,\"leaf\",0,0],[4,9,\"ct\",2,2]||2|unread
[4,9,\"ct\",2,2],[2,2,\"leaf\",0,0]||1|unread
[2,2,\"leaf\",0,0],[4,9,\"ct\",2,2]|,\"x\":0|1|unread
[2,2,\"leaf\",0,0],[4,9,\"ct\",1,4]||1|unread
[2,2,\"leaf\",0,0],[4,9,\"split\",2,2]||1|unread
[2,2,\"leaf\",0,0],[4,9,\"gt\",2,2]||1|unread
[2,2,\"leaf\",0,1],[4,9,\"ct\",2,2]||1|unread
[2,2,\"leaf\",0,0,0],[4,9,\"ct\",2,2]||1|unread
[2,2,\"leaf\",0],[4,9,\"ct\",2,2]||1|unread
[2,2,\"leaf\",0,0],[4,9,2,2,2]||1|unread
[4,9,\"ct\",2,2]||1|unread
||1|unread
[1,0,\"leaf\",0,0],[2,2,\"leaf\",0,0],[4,9,\"ct\",2,2]||1|unread
[2,2,\"leaf\",0,0],[4,9,\"ct\",2,2]||1.0|unread
[2,2,\"leaf\",0,0],[4,9,\"ct\",2,2]||1e0|unread
[2,2,\"leaf\",-0,0],[4,9,\"ct\",2,2]||1|unread
[2,2,\"leaf\",0,0],[4,9,\"ct\",2,2]|,\"version\":2|1|least 9
[2,2,\"leaf\",0,0],[4,9,\"ct\",2,2]|,\"size\":8|1|unread
";

// A request, a text, and what is said of it. On two processors the root is no leaf. Version 1 is of weight 1.
const TEXTS: &str = "\
dft 4 mod 17 root 4||unread
dft 4 mod 17 root 4|4|unread
dft 4 mod 17 root 4|[]|unread
dft 4 mod 17 root 4|{}|unread
dft 4 mod 17 root 4|{\"rows\":[[2,2,\"leaf\",0,0],[4,9,\"ct\",2,2]],\"size\":4,\"version\":1|unread
dft 4 mod 17 root 4|~{\"version\":1}|unread
dft 4 mod 17 root 4|{\"rows\": [[2, 2, \"leaf\", 0, 0], [4, 9, \"ct\", 2, 2]], \"size\": 4, \"version\": 1}|least 9
dft 4 mod 17 root 4|{\"rows\":[[2, 2, \"leaf\", 0, 0], [4, 9, \"ct\", 2, 2]], \"size\":4, \"version\":1}|least 9
dft 4 mod 17 root 4 procs 2|{\"rows\":[[2,2,\"leaf\",0,0],[4,12,\"ct\",2,2]],\"size\":4,\"version\":1}|least 12
dft 4 mod 17 root 4 procs 2|{\"rows\":[[2,2,\"leaf\",0,0],[4,9,\"ct\",2,2]],\"size\":4,\"version\":1}|wrong 4 9 12
dft 4 mod 17 root 4 procs 2|{\"rows\":[[2,2,\"leaf\",0,0],[4,16,\"leaf\",0,0]],\"size\":4,\"version\":1}|unread
dft 6 mod 7 root 3|{\"rows\":[[2,2,\"leaf\",0,0],[3,10,\"leaf\",0,0],[6,25,\"gt\",2,3]],\"size\":6,\"version\":1}|wrong 6 25 26
dft 6 mod 7 root 3|{\"rows\":[[2,2,\"leaf\",0,0],[3,10,\"leaf\",0,0],[6,26,\"gt\",3,2]],\"size\":6,\"version\":1}|least 26
dft 6 mod 7 root 3|{\"rows\":[[2,2,\"leaf\",0,0],[3,10,\"leaf\",0,0],[6,28,\"ct\",2,3]],\"size\":6,\"version\":1}|wrong 6 28 26
dft 6 mod 7 root 3|{\"rows\":[[2,2,\"leaf\",0,0],[3,10,\"leaf\",0,0],[6,26,\"ct\",2,3]],\"size\":6,\"version\":1}|wrong 6 26 28
wht 4 mod 5|{\"rows\":[[2,2,\"leaf\",0,0],[4,9,\"split\",2,2]],\"size\":4,\"version\":1}|wrong 4 9 8
wht 4 mod 5|{\"rows\":[[2,2,\"leaf\",0,0],[4,8,\"ct\",2,2]],\"size\":4,\"version\":1}|unread
wht 4 mod 5|{\"rows\":[[2,2,\"leaf\",0,0],[4,8,\"leaf\",0,0]],\"size\":4,\"version\":1}|unread
dft 4 mod 17 root 4|{\"rows\":[[2,2,\"leaf\",0,0],[4,9,\"ct\",2,2]],\"size\":4,\"version\":2,\"weight\":1}|least 9
dft 4 mod 17 root 4|{\"rows\":[[2,2,\"leaf\",0,0],[4,9,\"ct\",2,2]],\"size\":4,\"weight\":1,\"version\":2}|least 9
dft 4 mod 17 root 4|{\"rows\":[[2,2,\"leaf\",0,0],[4,9,\"ct\",2,2]],\"size\":4,\"version\":2}|unread
dft 4 mod 17 root 4|{\"rows\":[[2,2,\"leaf\",0,0],[4,9,\"ct\",2,2]],\"size\":4,\"version\":1,\"weight\":1}|unread
dft 4 mod 17 root 4|{\"rows\":[[2,2,\"leaf\",0,0],[4,9,\"ct\",2,2]],\"size\":4,\"version\":2,\"weight\":5}|unread
dft 4 mod 17 root 4|{\"rows\":[[2,2,\"leaf\",0,0],[4,9,\"ct\",2,2]],\"size\":4,\"version\":2,\"weight\":1,\"x\":0}|unread
dft 4 mod 17 root 4|{\"rows\":[[2,2,\"leaf\",0,0],[4,9,\"ct\",2,2]],\"size\":4,\"version\":3,\"weight\":1}|unread
dft 4 mod 17 root 4 weight 5|{\"rows\":[[2,2,\"leaf\",0,0],[4,9,\"ct\",2,2]],\"size\":4,\"version\":1}|unread
dft 4 mod 17 root 4 weight 5|{\"rows\":[[2,2,\"leaf\",0,0],[4,13,\"ct\",2,2]],\"size\":4,\"version\":1}|unread
dft 4 mod 17 root 4 weight 5|{\"rows\":[[2,2,\"leaf\",0,0],[4,13,\"ct\",2,2]],\"size\":4,\"version\":2,\"weight\":5}|least 13
dft 4 mod 17 root 4 weight 5|{\"rows\":[[2,2,\"leaf\",0,0],[4,13,\"ct\",2,2]],\"size\":4,\"weight\":4,\"version\":2,\"weight\":5}|least 13
dft 4 mod 17 root 4 weight 5|{\"rows\":[[2,2,\"leaf\",0,0],[4,13,\"ct\",2,2]],\"size\":4,\"version\":2,\"weight\":5.0}|unread
dft 4 mod 17 root 4 weight 5|{\"rows\":[[2,2,\"leaf\",0,0],[4,9,\"ct\",2,2]],\"size\":4,\"version\":2,\"weight\":5}|wrong 4 9 13
dft 4 mod 17 root 4 weight 5|{\"rows\":[[2,2,\"leaf\",0,0],[4,13,\"ct\",2,2]],\"size\":4,\"version\":2,\"weight\":1}|unread
idft 4 mod 17 root 4|{\"rows\":[[2,2,\"leaf\",0,0],[4,9,\"ct\",2,2]],\"size\":4,\"version\":1}|wrong 4 9 13
idft 4 mod 17 root 4|{\"rows\":[[2,4,\"leaf\",0,0],[4,13,\"ct\",2,2]],\"size\":4,\"version\":1}|wrong 2 4 2
idft 4 mod 17 root 4|{\"rows\":[[2,2,\"leaf\",0,0],[4,13,\"leaf\",0,0]],\"size\":4,\"version\":1}|wrong 4 13 20
dft 2x2 mod 17 root 16x16|[{\"rows\":[[2,2,\"leaf\",0,0]],\"size\":2,\"version\":1},{\"rows\":[[2,2,\"leaf\",0,0]],\"size\":2,\"version\":2,\"weight\":1}]|least 8
dft 2x2 mod 17 root 16x16| [ {\"rows\":[[2,2,\"leaf\",0,0]],\"size\":2,\"version\":2,\"weight\":1} , {\"rows\":[[2,2,\"leaf\",0,0]],\"size\":2,\"version\":2,\"weight\":1} ] |least 8
dft 2x2 mod 17 root 16x16 weight 5|[{\"rows\":[[2,2,\"leaf\",0,0]],\"size\":2,\"version\":1},{\"rows\":[[2,2,\"leaf\",0,0]],\"size\":2,\"version\":1}]|unread
dft 2x2 mod 17 root 16x16|[{\"rows\":[[2,2,\"leaf\",0,0]],\"size\":2,\"version\":2,\"weight\":1}]|unread
dft 2x2 mod 17 root 16x16|[{\"rows\":[[2,2,\"leaf\",0,0]],\"size\":2,\"version\":2,\"weight\":1},{\"rows\":[[2,2,\"leaf\",0,0]],\"size\":2,\"version\":2,\"weight\":1},{\"rows\":[[2,2,\"leaf\",0,0]],\"size\":2,\"version\":2,\"weight\":1}]|unread
dft 2x2 mod 17 root 16x16|{\"rows\":[[2,2,\"leaf\",0,0]],\"size\":2,\"version\":2,\"weight\":1}|unread
dft 4 mod 17 root 4|[{\"rows\":[[2,2,\"leaf\",0,0],[4,9,\"ct\",2,2]],\"size\":4,\"version\":2,\"weight\":1}]|unread
dft 2x2 mod 17 root 16x16|[{\"rows\":[[2,2,\"leaf\",0,0]],\"size\":2,\"version\":2,\"weight\":1},{\"rows\":[[3,10,\"leaf\",0,0]],\"size\":3,\"version\":2,\"weight\":1}]|unread
dft 2x2 mod 17 root 16x16|[{\"rows\":[[2,3,\"leaf\",0,0]],\"size\":2,\"version\":2,\"weight\":1},{\"rows\":[[2,2,\"leaf\",0,0]],\"size\":2,\"version\":2,\"weight\":1}]|wrong 2 3 2
dft 2x2 mod 17 root 16x16|[{\"rows\":[[2,2,\"leaf\",0,0]],\"size\":2,\"version\":2,\"weight\":1},{\"rows\":[[2,3,\"leaf\",0,0]],\"size\":2,\"version\":2,\"weight\":1}]|wrong 2 3 2
dft 2x2 mod 17 root 16x16|[{\"rows\":[[2,3,\"leaf\",0,0]],\"size\":2,\"version\":2,\"weight\":1},1]|unread
dft 2x3 mod 7 root 6x2|[{\"rows\":[[2,2,\"leaf\",0,0]],\"size\":2,\"version\":2,\"weight\":1},{\"rows\":[[3,10,\"leaf\",0,0]],\"size\":3,\"version\":2,\"weight\":1}]|least 26
dft 2x3 mod 7 root 6x2|[{\"rows\":[[3,10,\"leaf\",0,0]],\"size\":3,\"version\":2,\"weight\":1},{\"rows\":[[2,2,\"leaf\",0,0]],\"size\":2,\"version\":2,\"weight\":1}]|unread
dft 2x3 mod 7 root 6x2 lanes 2|[{\"rows\":[[2,2,\"leaf\",0,0]],\"size\":2,\"version\":2,\"weight\":1},{\"rows\":[[3,10,\"leaf\",0,0]],\"size\":3,\"version\":2,\"weight\":1}]|no divide
";

fn four_answer(alloc: Global, question: &str) -> Result<String, Fail> {
    let (question, version) = halves(question)?;
    let (rows, between) = halves(question)?;
    let c = context("dft 4 mod 17 root 4")?;
    let text = format!(in alloc;
        "{{\"size\":4,\"rows\":[{rows}]{between},\"version\":{version}}}"
    )?;
    verdict(alloc, &c, &text)
}

#[test]
fn rows_of_four(rt: HostRuntime) -> Result<(), Fail> {
    check(rt.alloc(), FOUR, four_answer)
}

fn text_answer(alloc: Global, question: &str) -> Result<String, Fail> {
    let (request, text) = question.split_once('|').ok_or("a request")?;
    let c = context(request)?;
    verdict(alloc, &c, &spelled(alloc, text)?)
}

#[test]
fn verdicts(rt: HostRuntime) -> Result<(), Fail> {
    check(rt.alloc(), TEXTS, text_answer)
}
