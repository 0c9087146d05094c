//! What is done over files that stop: requests and questions, and the answer to each.
use crate::streams::{OFFICE, RED, Request, SHOP_1, TEAM};

/// The status and the body of an answer.
pub(crate) type Answer = (&'static str, &'static str);

/// A request, its answer, and the answer if it was done already and is sent again.
pub(crate) type Step = (Request, Answer, Answer);

/// A question, and its answers, each from so many requests done on.
pub(crate) type Question = (Request, &'static [(usize, Answer)]);

/// What comes before a scenario, over files that don't stop.
#[derive(Clone, Copy)]
pub(crate) enum First {
    Nothing,
    Steps(&'static [Step]),
    /// These statements make tables of format 1.
    Tables(&'static [&'static str]),
}

#[derive(Clone, Copy)]
pub(crate) struct Scenario {
    pub(crate) first: First,
    pub(crate) steps: &'static [Step],
    pub(crate) questions: &'static [Question],
}

pub(crate) const FIRST_DEPLOYMENT: Scenario = Scenario {
    first: First::Nothing,
    steps: FIRST_RUN,
    questions: FIRST_RUN_QUESTIONS,
};

pub(crate) const GATED_DEPLOYMENTS: Scenario = Scenario {
    first: First::Nothing,
    steps: GATE,
    questions: GATE_QUESTIONS,
};

pub(crate) const REPLIES: Scenario = Scenario {
    first: First::Steps(CONTRACT),
    steps: SENT_REPLIES,
    questions: REPLIES_QUESTIONS,
};

pub(crate) const RESULT_OF_RUN: Scenario = Scenario {
    first: First::Steps(CONTRACT),
    steps: RUN_OF_TESTS,
    questions: RUN_QUESTIONS,
};

/// The migration, which is no request.
pub(crate) const MIGRATION: Scenario = Scenario {
    first: First::Tables(FORMER),
    steps: &[((OFFICE, "", ""), DONE, ALREADY)],
    questions: MIGRATION_QUESTIONS,
};

const BLUE: &str = "blue-team-token-1";

const TEAM_BLUE: &str = "{\"token\":\"blue-team-token-1\"}";

const GATED: &str = "{\"gated\":true}";

const OPEN: &str = "{\"gated\":false}";

const OF_RED: &str = "{\"team\":\"red\"}";

const OF_BLUE: &str = "{\"team\":\"blue\"}";

const SHOP_3: &str = "{\"pacticipant\":\"shop\",\"version\":\"3\"}";

const STOCK_1: &str = "{\"pacticipant\":\"stock\",\"version\":\"1\"}";

const PASS: &str = "{\"providerApplicationVersion\":\"1\",\"success\":true}";

const FAILURE: &str = "{\"providerApplicationVersion\":\"1\",\"success\":false}";

const PASS_OF_RUN: &str =
    "{\"providerApplicationVersion\":\"1\",\"success\":true,\"run\":\"ci-7\"}";

const FAILURE_OF_RUN: &str =
    "{\"providerApplicationVersion\":\"1\",\"success\":false,\"run\":\"ci-7\"}";

const PACT: &str =
    "{\"consumer\":{\"name\":\"shop\"},\"provider\":{\"name\":\"stock\"},\"interactions\":[{\"description\":\"a book\",\"request\":{\"method\":\"GET\",\"path\":\"/books/1\"},\"response\":{\"status\":200,\"headers\":{\"Content-Type\":\"application/json\"},\"body\":{\"id\":1,\"title\":\"Ada\"},\"matchingRules\":{\"body\":{\"$.id\":{\"matchers\":[{\"match\":\"integer\"}]},\"$.title\":{\"matchers\":[{\"match\":\"type\"}]}}}}}],\"metadata\":{\"pactSpecification\":{\"version\":\"3.0.0\"}}}";

const PACT_AGAIN: &str =
    "{\"provider\":{\"name\":\"stock\"},\"interactions\":[{\"response\":{\"matchingRules\":{\"body\":{\"$.title\":{\"matchers\":[{\"match\":\"type\"}]},\"$.id\":{\"matchers\":[{\"match\":\"integer\"}]}}},\"body\":{\"title\":\"Ada\",\"id\":1},\"headers\":{\"Content-Type\":\"application/json\"},\"status\":200},\"request\":{\"path\":\"/books/1\",\"method\":\"GET\"},\"description\":\"a book\"}],\"consumer\":{\"name\":\"shop\"}}";

const GOOD_REPLY: &str =
    "{\"providerApplicationVersion\":\"1\",\"replies\":[{\"description\":\"a book\",\"response\":{\"status\":200,\"headers\":{\"content-type\":\"application/json; charset=utf-8\"},\"body\":{\"id\":7,\"title\":\"Grace\",\"pages\":90}}}]}";

const BAD_REPLY: &str =
    "{\"providerApplicationVersion\":\"1\",\"replies\":[{\"description\":\"a book\",\"response\":{\"status\":200,\"headers\":{\"content-type\":\"application/json; charset=utf-8\"},\"body\":{\"id\":\"7\",\"title\":\"Grace\",\"pages\":90}}}]}";

const NO_REPLY: &str = "{\"providerApplicationVersion\":\"1\",\"replies\":[]}";

const DONE: Answer = ("200 OK", "{\"answer\":\"done\"}");

const ALREADY: Answer = ("200 OK", "{\"answer\":\"already\"}");

const SHOP_1_IN_DEV: Answer = (
    "200 OK",
    "{\"answer\":\"shown\",\"deployed\":[{\"instance\":\"\",\"pacticipant\":\"shop\",\"version\":\"1\"}],\"environment\":\"dev\",\"gated\":false,\"released\":[]}",
);

const NOTHING_IN_DEV: Answer = (
    "200 OK",
    "{\"answer\":\"shown\",\"deployed\":[],\"environment\":\"dev\",\"gated\":false,\"released\":[]}",
);

const NO_ENVIRONMENT: Answer = (
    "404 Not Found",
    "{\"answer\":\"unknown\",\"what\":\"environment\"}",
);

const NO_PACTICIPANT: Answer = (
    "404 Not Found",
    "{\"answer\":\"unknown\",\"what\":\"pacticipant\"}",
);

const NO_VERSION: Answer = (
    "404 Not Found",
    "{\"answer\":\"unknown\",\"what\":\"version\"}",
);

const FREE: Answer = (
    "200 OK",
    "{\"answer\":\"shown\",\"environment\":\"dev\",\"faults\":[],\"gated\":false,\"permitted\":true}",
);

const NO_ROWS: Answer = ("200 OK", "{\"answer\":\"shown\",\"rows\":[]}");

const DONE_CONTENT_1: Answer = ("200 OK", "{\"answer\":\"done\",\"content\":1}");

const ALREADY_CONTENT_1: Answer = ("200 OK", "{\"answer\":\"already\",\"content\":1}");

const REFUSED_ABSENT: Answer = (
    "409 Conflict",
    "{\"answer\":\"not permitted\",\"faults\":[{\"consumer\":\"shop\",\"consumerVersion\":\"1\",\"kind\":\"absent\",\"provider\":\"stock\",\"providerVersion\":null}]}",
);

const REFUSED_MISSING: Answer = (
    "409 Conflict",
    "{\"answer\":\"not permitted\",\"faults\":[{\"consumer\":\"shop\",\"consumerVersion\":\"1\",\"kind\":\"missing\",\"provider\":\"stock\",\"providerVersion\":\"1\"}]}",
);

const DONE_RESULT_1: Answer = ("200 OK", "{\"answer\":\"done\",\"result\":1}");

const DONE_RESULT_2: Answer = ("200 OK", "{\"answer\":\"done\",\"result\":2}");

const DONE_RESULT_3: Answer = ("200 OK", "{\"answer\":\"done\",\"result\":3}");

const NOTHING_IN_LIVE: Answer = (
    "200 OK",
    "{\"answer\":\"shown\",\"deployed\":[],\"environment\":\"live\",\"gated\":true,\"released\":[]}",
);

const STOCK_1_IN_LIVE: Answer = (
    "200 OK",
    "{\"answer\":\"shown\",\"deployed\":[{\"instance\":\"\",\"pacticipant\":\"stock\",\"version\":\"1\"}],\"environment\":\"live\",\"gated\":true,\"released\":[]}",
);

const SHOP_1_IN_LIVE: Answer = (
    "200 OK",
    "{\"answer\":\"shown\",\"deployed\":[{\"instance\":\"\",\"pacticipant\":\"shop\",\"version\":\"1\"},{\"instance\":\"\",\"pacticipant\":\"stock\",\"version\":\"1\"}],\"environment\":\"live\",\"gated\":true,\"released\":[]}",
);

const SHOP_3_IN_LIVE: Answer = (
    "200 OK",
    "{\"answer\":\"shown\",\"deployed\":[{\"instance\":\"\",\"pacticipant\":\"shop\",\"version\":\"3\"},{\"instance\":\"\",\"pacticipant\":\"stock\",\"version\":\"1\"}],\"environment\":\"live\",\"gated\":true,\"released\":[]}",
);

const ABSENT: Answer = (
    "200 OK",
    "{\"answer\":\"shown\",\"environment\":\"live\",\"faults\":[{\"consumer\":\"shop\",\"consumerVersion\":\"1\",\"kind\":\"absent\",\"provider\":\"stock\",\"providerVersion\":null}],\"gated\":true,\"permitted\":false}",
);

const MISSING: Answer = (
    "200 OK",
    "{\"answer\":\"shown\",\"environment\":\"live\",\"faults\":[{\"consumer\":\"shop\",\"consumerVersion\":\"1\",\"kind\":\"missing\",\"provider\":\"stock\",\"providerVersion\":\"1\"}],\"gated\":true,\"permitted\":false}",
);

const FAILED: Answer = (
    "200 OK",
    "{\"answer\":\"shown\",\"environment\":\"live\",\"faults\":[{\"consumer\":\"shop\",\"consumerVersion\":\"1\",\"kind\":\"failed\",\"provider\":\"stock\",\"providerVersion\":\"1\"}],\"gated\":true,\"permitted\":false}",
);

const PERMITTED: Answer = (
    "200 OK",
    "{\"answer\":\"shown\",\"environment\":\"live\",\"faults\":[],\"gated\":true,\"permitted\":true}",
);

const ROW_WITHOUT_RESULT: Answer = (
    "200 OK",
    "{\"answer\":\"shown\",\"rows\":[{\"consumer\":\"shop\",\"consumerVersion\":\"1\",\"evidence\":null,\"provider\":\"stock\",\"providerVersion\":null,\"result\":null,\"success\":null}]}",
);

const ROW_OF_RESULT_1: Answer = (
    "200 OK",
    "{\"answer\":\"shown\",\"rows\":[{\"consumer\":\"shop\",\"consumerVersion\":\"1\",\"evidence\":\"claimed\",\"provider\":\"stock\",\"providerVersion\":\"1\",\"result\":1,\"success\":true}]}",
);

const ROW_OF_RESULT_2: Answer = (
    "200 OK",
    "{\"answer\":\"shown\",\"rows\":[{\"consumer\":\"shop\",\"consumerVersion\":\"1\",\"evidence\":\"claimed\",\"provider\":\"stock\",\"providerVersion\":\"1\",\"result\":2,\"success\":false}]}",
);

const ROW_OF_RESULT_3: Answer = (
    "200 OK",
    "{\"answer\":\"shown\",\"rows\":[{\"consumer\":\"shop\",\"consumerVersion\":\"1\",\"evidence\":\"claimed\",\"provider\":\"stock\",\"providerVersion\":\"1\",\"result\":3,\"success\":true}]}",
);

const REPLIES_1: Answer = (
    "200 OK",
    "{\"answer\":\"done\",\"failing\":[],\"result\":1,\"success\":true}",
);

const REPLIES_2: Answer = (
    "200 OK",
    "{\"answer\":\"done\",\"failing\":[0],\"result\":2,\"success\":false}",
);

const REPLIES_3: Answer = (
    "200 OK",
    "{\"answer\":\"done\",\"failing\":[0],\"result\":3,\"success\":false}",
);

const ROW_OF_REPLIES_1: Answer = (
    "200 OK",
    "{\"answer\":\"shown\",\"rows\":[{\"consumer\":\"shop\",\"consumerVersion\":\"1\",\"evidence\":\"checked\",\"provider\":\"stock\",\"providerVersion\":\"1\",\"result\":1,\"success\":true}]}",
);

const ROW_OF_REPLIES_2: Answer = (
    "200 OK",
    "{\"answer\":\"shown\",\"rows\":[{\"consumer\":\"shop\",\"consumerVersion\":\"1\",\"evidence\":\"checked\",\"provider\":\"stock\",\"providerVersion\":\"1\",\"result\":2,\"success\":false}]}",
);

const ROW_OF_REPLIES_3: Answer = (
    "200 OK",
    "{\"answer\":\"shown\",\"rows\":[{\"consumer\":\"shop\",\"consumerVersion\":\"1\",\"evidence\":\"checked\",\"provider\":\"stock\",\"providerVersion\":\"1\",\"result\":3,\"success\":false}]}",
);

const ALREADY_RESULT_1: Answer = ("200 OK", "{\"answer\":\"already\",\"result\":1}");

const RUN_TAKEN: Answer = ("409 Conflict", "{\"answer\":\"taken\",\"what\":\"run\"}");

const POST_RESULT: &str = "POST /pacts/provider/stock/consumer/shop/version/1/results";

const POST_REPLIES: &str = "POST /pacts/provider/stock/consumer/shop/version/1/replies";

const TEAM_OF_RED: Step = ((OFFICE, "PUT /teams/red", TEAM), DONE, ALREADY);

const TEAM_OF_BLUE: Step = ((OFFICE, "PUT /teams/blue", TEAM_BLUE), DONE, ALREADY);

const LIVE: Step = ((OFFICE, "PUT /environments/live", GATED), DONE, ALREADY);

const SHOP: Step = ((OFFICE, "PUT /pacticipants/shop", OF_RED), DONE, ALREADY);

const STOCK: Step = ((OFFICE, "PUT /pacticipants/stock", OF_BLUE), DONE, ALREADY);

const GRANT_OF_RED: Step = (
    (OFFICE, "PUT /grants/team/red/environment/live", ""),
    DONE,
    ALREADY,
);

const GRANT_OF_BLUE: Step = (
    (OFFICE, "PUT /grants/team/blue/environment/live", ""),
    DONE,
    ALREADY,
);

const PACT_OF_SHOP_1: Step = (
    (
        RED,
        "PUT /pacts/provider/stock/consumer/shop/version/1",
        PACT,
    ),
    DONE_CONTENT_1,
    ALREADY_CONTENT_1,
);

const STOCK_VERSION: Step = (
    (BLUE, "PUT /pacticipants/stock/versions/1", ""),
    DONE,
    ALREADY,
);

const STOCK_IN_LIVE: Step = (
    (BLUE, "POST /environments/live/deployments", STOCK_1),
    DONE,
    ALREADY,
);

const IN_LIVE: Request = (OFFICE, "GET /environments/live", "");

const SHOP_1_INTO_LIVE: Request = (
    OFFICE,
    "GET /can-i-deploy?pacticipant=shop&version=1&environment=live",
    "",
);

const MATRIX_OF_SHOP_1: Request = (OFFICE, "GET /matrix?pacticipant=shop&version=1", "");

/// A first deployment, and the listing.
const FIRST_RUN: &[Step] = &[
    TEAM_OF_RED,
    ((OFFICE, "PUT /environments/dev", OPEN), DONE, ALREADY),
    SHOP,
    (
        (OFFICE, "PUT /grants/team/red/environment/dev", ""),
        DONE,
        ALREADY,
    ),
    (
        (RED, "PUT /pacticipants/shop/versions/1", ""),
        DONE,
        ALREADY,
    ),
    (
        (RED, "POST /environments/dev/deployments", SHOP_1),
        DONE,
        ALREADY,
    ),
    (
        (RED, "GET /environments/dev", ""),
        SHOP_1_IN_DEV,
        SHOP_1_IN_DEV,
    ),
];

const FIRST_RUN_QUESTIONS: &[Question] = &[
    (
        (OFFICE, "GET /environments/dev", ""),
        &[(0, NO_ENVIRONMENT), (2, NOTHING_IN_DEV), (6, SHOP_1_IN_DEV)],
    ),
    (
        (
            OFFICE,
            "GET /can-i-deploy?pacticipant=shop&version=1&environment=dev",
            "",
        ),
        &[(0, NO_PACTICIPANT), (3, NO_VERSION), (5, FREE)],
    ),
    (
        MATRIX_OF_SHOP_1,
        &[(0, NO_PACTICIPANT), (3, NO_VERSION), (5, NO_ROWS)],
    ),
];

/// A contract, its first results, and the deployments that the gate refuses and permits.
const GATE: &[Step] = &[
    TEAM_OF_RED,
    TEAM_OF_BLUE,
    LIVE,
    SHOP,
    STOCK,
    GRANT_OF_RED,
    GRANT_OF_BLUE,
    PACT_OF_SHOP_1,
    (
        (RED, "POST /environments/live/deployments", SHOP_1),
        REFUSED_ABSENT,
        REFUSED_ABSENT,
    ),
    STOCK_VERSION,
    STOCK_IN_LIVE,
    (
        (RED, "POST /environments/live/deployments", SHOP_1),
        REFUSED_MISSING,
        REFUSED_MISSING,
    ),
    ((BLUE, POST_RESULT, PASS), DONE_RESULT_1, DONE_RESULT_1),
    ((BLUE, POST_RESULT, FAILURE), DONE_RESULT_2, DONE_RESULT_2),
    ((BLUE, POST_RESULT, PASS), DONE_RESULT_3, DONE_RESULT_3),
    (
        (RED, "POST /environments/live/deployments", SHOP_1),
        DONE,
        ALREADY,
    ),
    (
        (
            RED,
            "PUT /pacts/provider/stock/consumer/shop/version/3",
            PACT_AGAIN,
        ),
        DONE_CONTENT_1,
        ALREADY_CONTENT_1,
    ),
    (
        (RED, "POST /environments/live/deployments", SHOP_3),
        DONE,
        ALREADY,
    ),
];

const GATE_QUESTIONS: &[Question] = &[
    (
        IN_LIVE,
        &[
            (0, NO_ENVIRONMENT),
            (3, NOTHING_IN_LIVE),
            (11, STOCK_1_IN_LIVE),
            (16, SHOP_1_IN_LIVE),
            (18, SHOP_3_IN_LIVE),
        ],
    ),
    (
        SHOP_1_INTO_LIVE,
        &[
            (0, NO_PACTICIPANT),
            (4, NO_VERSION),
            (8, ABSENT),
            (11, MISSING),
            (13, PERMITTED),
            (14, FAILED),
            (15, PERMITTED),
        ],
    ),
    (
        (
            OFFICE,
            "GET /can-i-deploy?pacticipant=shop&version=3&environment=live",
            "",
        ),
        &[(0, NO_PACTICIPANT), (4, NO_VERSION), (17, PERMITTED)],
    ),
    (
        MATRIX_OF_SHOP_1,
        &[
            (0, NO_PACTICIPANT),
            (4, NO_VERSION),
            (8, ROW_WITHOUT_RESULT),
            (13, ROW_OF_RESULT_1),
            (14, ROW_OF_RESULT_2),
            (15, ROW_OF_RESULT_3),
        ],
    ),
];

/// A contract whose provider is deployed in live, and which has no result yet.
const CONTRACT: &[Step] = &[
    TEAM_OF_RED,
    TEAM_OF_BLUE,
    LIVE,
    SHOP,
    STOCK,
    GRANT_OF_RED,
    GRANT_OF_BLUE,
    PACT_OF_SHOP_1,
    STOCK_VERSION,
    STOCK_IN_LIVE,
];

/// Replies that pass, that fail, and that leave an interaction out.
const SENT_REPLIES: &[Step] = &[
    ((BLUE, POST_REPLIES, GOOD_REPLY), REPLIES_1, REPLIES_1),
    ((BLUE, POST_REPLIES, BAD_REPLY), REPLIES_2, REPLIES_2),
    ((BLUE, POST_REPLIES, NO_REPLY), REPLIES_3, REPLIES_3),
];

const REPLIES_QUESTIONS: &[Question] = &[
    (IN_LIVE, &[(0, STOCK_1_IN_LIVE)]),
    (
        SHOP_1_INTO_LIVE,
        &[(0, MISSING), (1, PERMITTED), (2, FAILED)],
    ),
    (
        MATRIX_OF_SHOP_1,
        &[
            (0, ROW_WITHOUT_RESULT),
            (1, ROW_OF_REPLIES_1),
            (2, ROW_OF_REPLIES_2),
            (3, ROW_OF_REPLIES_3),
        ],
    ),
];

/// The result of a run: sent again it is stored once, and another result of the run is refused.
const RUN_OF_TESTS: &[Step] = &[
    (
        (BLUE, POST_RESULT, PASS_OF_RUN),
        DONE_RESULT_1,
        ALREADY_RESULT_1,
    ),
    ((BLUE, POST_RESULT, FAILURE_OF_RUN), RUN_TAKEN, RUN_TAKEN),
];

const RUN_QUESTIONS: &[Question] = &[
    (IN_LIVE, &[(0, STOCK_1_IN_LIVE)]),
    (SHOP_1_INTO_LIVE, &[(0, MISSING), (1, PERMITTED)]),
    (
        MATRIX_OF_SHOP_1,
        &[(0, ROW_WITHOUT_RESULT), (1, ROW_OF_RESULT_1)],
    ),
];

/// The tables of format 1, in the order in which a broker made them, and its rows: the first version of shop has a
/// contract with stock, whose first version passed it, failed it and passed it; both are deployed.
const FORMER: &[&str] = &[
    "CREATE TABLE meta (one INTEGER NOT NULL PRIMARY KEY CHECK (one = 1), format INTEGER NOT NULL, office_digest TEXT NOT NULL) STRICT",
    "CREATE TABLE teams (name TEXT NOT NULL PRIMARY KEY, token_digest TEXT NOT NULL UNIQUE) STRICT",
    "CREATE TABLE pacticipants (name TEXT NOT NULL PRIMARY KEY, team TEXT NOT NULL REFERENCES teams (name)) STRICT",
    "CREATE TABLE versions (number INTEGER NOT NULL PRIMARY KEY, pacticipant TEXT NOT NULL REFERENCES pacticipants (name), version TEXT NOT NULL, UNIQUE (pacticipant, version)) STRICT",
    "CREATE TABLE branches (version_number INTEGER NOT NULL REFERENCES versions (number), branch TEXT NOT NULL, PRIMARY KEY (version_number, branch)) STRICT",
    "CREATE TABLE environments (name TEXT NOT NULL PRIMARY KEY, gated INTEGER NOT NULL CHECK (gated IN (0, 1))) STRICT",
    "CREATE TABLE grants (team TEXT NOT NULL REFERENCES teams (name), environment TEXT NOT NULL REFERENCES environments (name), PRIMARY KEY (team, environment)) STRICT",
    "CREATE TABLE contents (number INTEGER NOT NULL PRIMARY KEY, digest TEXT NOT NULL, body TEXT NOT NULL) STRICT",
    "CREATE TABLE contracts (version_number INTEGER NOT NULL REFERENCES versions (number), provider TEXT NOT NULL REFERENCES pacticipants (name), content INTEGER NOT NULL REFERENCES contents (number), PRIMARY KEY (version_number, provider)) STRICT",
    "CREATE TABLE results (number INTEGER NOT NULL PRIMARY KEY, content INTEGER NOT NULL REFERENCES contents (number), provider TEXT NOT NULL REFERENCES pacticipants (name), provider_version INTEGER NOT NULL REFERENCES versions (number), pass INTEGER NOT NULL CHECK (pass IN (0, 1)), run TEXT, UNIQUE (provider, run)) STRICT",
    "CREATE TABLE latest (content INTEGER NOT NULL REFERENCES contents (number), provider_version INTEGER NOT NULL REFERENCES versions (number), result INTEGER NOT NULL REFERENCES results (number), PRIMARY KEY (content, provider_version)) STRICT",
    "CREATE TABLE deployed (environment TEXT NOT NULL REFERENCES environments (name), pacticipant TEXT NOT NULL REFERENCES pacticipants (name), instance TEXT NOT NULL, version_number INTEGER NOT NULL REFERENCES versions (number), PRIMARY KEY (environment, pacticipant, instance)) STRICT",
    "CREATE TABLE released (environment TEXT NOT NULL REFERENCES environments (name), version_number INTEGER NOT NULL REFERENCES versions (number), PRIMARY KEY (environment, version_number)) STRICT",
    "INSERT INTO meta (one, format, office_digest) VALUES (1, 1, '911136037767135847f042ad4530b5746995d41379f7595f8638550348fe019c')",
    "INSERT INTO teams (name, token_digest) VALUES ('red', 'e0245048fb374c9d23c4bf9a4a5988cf946926a7183bce773b93b1e4c7a461f6'), ('blue', 'd4c51bec08a6d3af59b467538d6bcf889bfe95f2c013d085c26335c9b98899c5')",
    "INSERT INTO environments (name, gated) VALUES ('live', 1)",
    "INSERT INTO pacticipants (name, team) VALUES ('shop', 'red'), ('stock', 'blue')",
    "INSERT INTO grants (team, environment) VALUES ('red', 'live'), ('blue', 'live')",
    "INSERT INTO versions (number, pacticipant, version) VALUES (1, 'shop', '1'), (2, 'stock', '1')",
    "INSERT INTO contents (number, digest, body) VALUES (1, 'eaeb3197702549594da7e9b02d85f0773344c380b92372fb68e1a7f3a04f2b33', '{\"consumer\":{\"name\":\"shop\"},\"interactions\":[{\"description\":\"a book\",\"providerStates\":[],\"request\":{\"method\":\"GET\",\"path\":\"/books/1\"},\"response\":{\"body\":{\"id\":1,\"title\":\"Ada\"},\"headers\":{\"Content-Type\":\"application/json\"},\"matchingRules\":{\"body\":{\"$.id\":{\"matchers\":[{\"match\":\"integer\"}]},\"$.title\":{\"matchers\":[{\"match\":\"type\"}]}}},\"status\":200}}],\"provider\":{\"name\":\"stock\"}}')",
    "INSERT INTO contracts (version_number, provider, content) VALUES (1, 'stock', 1)",
    "INSERT INTO results (number, content, provider, provider_version, pass, run) VALUES (1, 1, 'stock', 2, 1, NULL), (2, 1, 'stock', 2, 0, NULL), (3, 1, 'stock', 2, 1, NULL)",
    "INSERT INTO latest (content, provider_version, result) VALUES (1, 2, 3)",
    "INSERT INTO deployed (environment, pacticipant, instance, version_number) VALUES ('live', 'stock', '', 2), ('live', 'shop', '', 1)",
];

const MIGRATION_QUESTIONS: &[Question] = &[
    (IN_LIVE, &[(1, SHOP_1_IN_LIVE)]),
    (SHOP_1_INTO_LIVE, &[(1, PERMITTED)]),
    (MATRIX_OF_SHOP_1, &[(1, ROW_OF_RESULT_3)]),
];
