// Document 01's listing and cases, computed of the definitions: laws alone.
#![tactic(auto)]
