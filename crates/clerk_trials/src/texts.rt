//! Six commands for a plan and a fork of it, and what is answered to them and to queries after so many of them.
/// Makes the plan, keeps a revision of it, changes a county of that, forks the first revision, changes the other county of the
/// fork, and takes the plan away.
pub const COMMANDS: &[u8] =
    b"PUT /plans/a?kind=congress&districts=2 HTTP/1.1\r\nHost: d\r\n\r\nPOST /plans/a/revisions?after=0 HTTP/1.1\r\nHost: d\r\nContent-Length: 93\r\n\r\nBLOCKID|DISTRICT\n190010001001001|01\n190010001001002|01\n190030001001001|02\n190030001001002|02\nPOST /plans/a/counties?after=1 HTTP/1.1\r\nHost: d\r\nContent-Length: 53\r\n\r\nBLOCKID|DISTRICT\n190030001001001|1\n190030001001002|1\nPOST /plans/b?from=a:1 HTTP/1.1\r\nHost: d\r\n\r\nPOST /plans/b/counties?after=1 HTTP/1.1\r\nHost: d\r\nContent-Length: 53\r\n\r\nBLOCKID|DISTRICT\n190010001001001|2\n190010001001002|2\nDELETE /plans/a HTTP/1.1\r\nHost: d\r\n\r\n";

/// How many they are.
pub const ALL: usize = 6;

/// Lists the plans, and reads both revisions of each.
pub const QUERIES: &[u8] =
    b"GET /plans HTTP/1.1\r\nHost: d\r\n\r\nGET /plans/a/revisions/1 HTTP/1.1\r\nHost: d\r\n\r\nGET /plans/a/revisions/2 HTTP/1.1\r\nHost: d\r\n\r\nGET /plans/b/revisions/1 HTTP/1.1\r\nHost: d\r\n\r\nGET /plans/b/revisions/2 HTTP/1.1\r\nHost: d\r\n\r\n";

/// What each command is answered where it is made.
static MADE: [&[u8]; ALL] = [
    b"HTTP/1.1 201 Created\r\nContent-Type: application/json\r\nContent-Length: 26\r\n\r\n{\"plan\":\"a\",\"revisions\":0}",
    b"HTTP/1.1 201 Created\r\nContent-Type: application/json\r\nContent-Length: 26\r\n\r\n{\"plan\":\"a\",\"revisions\":1}",
    b"HTTP/1.1 201 Created\r\nContent-Type: application/json\r\nContent-Length: 26\r\n\r\n{\"plan\":\"a\",\"revisions\":2}",
    b"HTTP/1.1 201 Created\r\nContent-Type: application/json\r\nContent-Length: 26\r\n\r\n{\"plan\":\"b\",\"revisions\":1}",
    b"HTTP/1.1 201 Created\r\nContent-Type: application/json\r\nContent-Length: 26\r\n\r\n{\"plan\":\"b\",\"revisions\":2}",
    b"HTTP/1.1 200 OK\r\nContent-Type: application/json\r\nContent-Length: 27\r\n\r\n{\"plan\":\"a\",\"retired\":true}",
];

/// What a command is answered in which the device fails, and each one after it.
pub const HALTED: &[u8] =
    b"HTTP/1.1 503 Service Unavailable\r\nContent-Type: application/json\r\nContent-Length: 18\r\n\r\n{\"error\":\"Halted\"}";

/// The answers to the queries after each number of commands.
static SHOWN: [&[u8]; ALL + 1] = [
    b"HTTP/1.1 200 OK\r\nContent-Type: application/json\r\nContent-Length: 12\r\n\r\n{\"plans\":[]}HTTP/1.1 404 Not Found\r\nContent-Type: application/json\r\nContent-Length: 18\r\n\r\n{\"error\":\"NoPlan\"}HTTP/1.1 404 Not Found\r\nContent-Type: application/json\r\nContent-Length: 18\r\n\r\n{\"error\":\"NoPlan\"}HTTP/1.1 404 Not Found\r\nContent-Type: application/json\r\nContent-Length: 18\r\n\r\n{\"error\":\"NoPlan\"}HTTP/1.1 404 Not Found\r\nContent-Type: application/json\r\nContent-Length: 18\r\n\r\n{\"error\":\"NoPlan\"}",
    b"HTTP/1.1 200 OK\r\nContent-Type: application/json\r\nContent-Length: 70\r\n\r\n{\"plans\":[{\"districts\":2,\"kind\":\"congress\",\"name\":\"a\",\"revisions\":0}]}HTTP/1.1 404 Not Found\r\nContent-Type: application/json\r\nContent-Length: 22\r\n\r\n{\"error\":\"NoRevision\"}HTTP/1.1 404 Not Found\r\nContent-Type: application/json\r\nContent-Length: 22\r\n\r\n{\"error\":\"NoRevision\"}HTTP/1.1 404 Not Found\r\nContent-Type: application/json\r\nContent-Length: 18\r\n\r\n{\"error\":\"NoPlan\"}HTTP/1.1 404 Not Found\r\nContent-Type: application/json\r\nContent-Length: 18\r\n\r\n{\"error\":\"NoPlan\"}",
    b"HTTP/1.1 200 OK\r\nContent-Type: application/json\r\nContent-Length: 70\r\n\r\n{\"plans\":[{\"districts\":2,\"kind\":\"congress\",\"name\":\"a\",\"revisions\":1}]}HTTP/1.1 200 OK\r\nContent-Type: text/plain\r\nContent-Length: 93\r\n\r\nBLOCKID|DISTRICT\n190010001001001|01\n190010001001002|01\n190030001001001|02\n190030001001002|02\nHTTP/1.1 404 Not Found\r\nContent-Type: application/json\r\nContent-Length: 22\r\n\r\n{\"error\":\"NoRevision\"}HTTP/1.1 404 Not Found\r\nContent-Type: application/json\r\nContent-Length: 18\r\n\r\n{\"error\":\"NoPlan\"}HTTP/1.1 404 Not Found\r\nContent-Type: application/json\r\nContent-Length: 18\r\n\r\n{\"error\":\"NoPlan\"}",
    b"HTTP/1.1 200 OK\r\nContent-Type: application/json\r\nContent-Length: 70\r\n\r\n{\"plans\":[{\"districts\":2,\"kind\":\"congress\",\"name\":\"a\",\"revisions\":2}]}HTTP/1.1 200 OK\r\nContent-Type: text/plain\r\nContent-Length: 93\r\n\r\nBLOCKID|DISTRICT\n190010001001001|01\n190010001001002|01\n190030001001001|02\n190030001001002|02\nHTTP/1.1 200 OK\r\nContent-Type: text/plain\r\nContent-Length: 93\r\n\r\nBLOCKID|DISTRICT\n190010001001001|01\n190010001001002|01\n190030001001001|01\n190030001001002|01\nHTTP/1.1 404 Not Found\r\nContent-Type: application/json\r\nContent-Length: 18\r\n\r\n{\"error\":\"NoPlan\"}HTTP/1.1 404 Not Found\r\nContent-Type: application/json\r\nContent-Length: 18\r\n\r\n{\"error\":\"NoPlan\"}",
    b"HTTP/1.1 200 OK\r\nContent-Type: application/json\r\nContent-Length: 129\r\n\r\n{\"plans\":[{\"districts\":2,\"kind\":\"congress\",\"name\":\"a\",\"revisions\":2},{\"districts\":2,\"kind\":\"congress\",\"name\":\"b\",\"revisions\":1}]}HTTP/1.1 200 OK\r\nContent-Type: text/plain\r\nContent-Length: 93\r\n\r\nBLOCKID|DISTRICT\n190010001001001|01\n190010001001002|01\n190030001001001|02\n190030001001002|02\nHTTP/1.1 200 OK\r\nContent-Type: text/plain\r\nContent-Length: 93\r\n\r\nBLOCKID|DISTRICT\n190010001001001|01\n190010001001002|01\n190030001001001|01\n190030001001002|01\nHTTP/1.1 200 OK\r\nContent-Type: text/plain\r\nContent-Length: 93\r\n\r\nBLOCKID|DISTRICT\n190010001001001|01\n190010001001002|01\n190030001001001|02\n190030001001002|02\nHTTP/1.1 404 Not Found\r\nContent-Type: application/json\r\nContent-Length: 22\r\n\r\n{\"error\":\"NoRevision\"}",
    b"HTTP/1.1 200 OK\r\nContent-Type: application/json\r\nContent-Length: 129\r\n\r\n{\"plans\":[{\"districts\":2,\"kind\":\"congress\",\"name\":\"a\",\"revisions\":2},{\"districts\":2,\"kind\":\"congress\",\"name\":\"b\",\"revisions\":2}]}HTTP/1.1 200 OK\r\nContent-Type: text/plain\r\nContent-Length: 93\r\n\r\nBLOCKID|DISTRICT\n190010001001001|01\n190010001001002|01\n190030001001001|02\n190030001001002|02\nHTTP/1.1 200 OK\r\nContent-Type: text/plain\r\nContent-Length: 93\r\n\r\nBLOCKID|DISTRICT\n190010001001001|01\n190010001001002|01\n190030001001001|01\n190030001001002|01\nHTTP/1.1 200 OK\r\nContent-Type: text/plain\r\nContent-Length: 93\r\n\r\nBLOCKID|DISTRICT\n190010001001001|01\n190010001001002|01\n190030001001001|02\n190030001001002|02\nHTTP/1.1 200 OK\r\nContent-Type: text/plain\r\nContent-Length: 93\r\n\r\nBLOCKID|DISTRICT\n190010001001001|02\n190010001001002|02\n190030001001001|02\n190030001001002|02\n",
    b"HTTP/1.1 200 OK\r\nContent-Type: application/json\r\nContent-Length: 70\r\n\r\n{\"plans\":[{\"districts\":2,\"kind\":\"congress\",\"name\":\"b\",\"revisions\":2}]}HTTP/1.1 404 Not Found\r\nContent-Type: application/json\r\nContent-Length: 18\r\n\r\n{\"error\":\"NoPlan\"}HTTP/1.1 404 Not Found\r\nContent-Type: application/json\r\nContent-Length: 18\r\n\r\n{\"error\":\"NoPlan\"}HTTP/1.1 200 OK\r\nContent-Type: text/plain\r\nContent-Length: 93\r\n\r\nBLOCKID|DISTRICT\n190010001001001|01\n190010001001002|01\n190030001001001|02\n190030001001002|02\nHTTP/1.1 200 OK\r\nContent-Type: text/plain\r\nContent-Length: 93\r\n\r\nBLOCKID|DISTRICT\n190010001001001|02\n190010001001002|02\n190030001001001|02\n190030001001002|02\n",
];

/// Returns whether these are the answers to the queries after `made` commands.
pub fn shows(text: &[u8], made: usize) -> bool {
    made <= ALL && text == SHOWN[made]
}

/// Returns how many commands these answers acknowledge before the device fails; more than all if
/// they are other answers.
pub fn told_made(text: &[u8]) -> usize {
    let mut rest = text;
    let mut made = 0usize;
    let mut fails = false;
    for answer in &MADE {
        if !fails {
            if let Some(later) = rest.strip_prefix(*answer) {
                rest = later;
                made = made.saturating_add(1);
                continue;
            }
            fails = true;
        }
        match rest.strip_prefix(HALTED) {
            Some(later) => rest = later,
            None => return ALL + 1,
        }
    }
    if rest.is_empty() { made } else { ALL + 1 }
}
