// No code: document 01's lettered examples, shown of the definitions by one table in specs/ and one claim on all its rows.
#![tactic(auto)]
