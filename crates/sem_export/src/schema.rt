/// The JSON Schema of the lines of a report.
pub const SCHEMA: &str = r##"{
  "$schema": "https://json-schema.org/draft/2020-12/schema",
  "title": "A line of `semper-view json`",
  "oneOf": [
    {"$ref": "#/$defs/setup"},
    {"$ref": "#/$defs/entry"},
    {"$ref": "#/$defs/audit"}
  ],
  "$defs": {
    "key": {
      "description": "PE, VPE, kind (1 memory, 2 receive gate, 3 send gate, 4 service, 5 session), number",
      "type": "string",
      "pattern": "^[0-9]+\\.[0-9]+\\.[1-5]\\.[0-9]+$"
    },
    "place": {"type": "string", "pattern": "^[0-9]+\\.[0-9]+\\.[0-9]+$"},
    "vpe": {"type": "integer", "minimum": 0, "maximum": 127},
    "kernel": {"type": "integer", "minimum": 0, "maximum": 31},
    "selector": {"type": "integer", "minimum": 0, "maximum": 255},
    "byte": {"type": "integer", "minimum": 0, "maximum": 255},
    "count": {"type": "integer", "minimum": 0},
    "decimal": {"description": "a number that can be above 2^53", "type": "string", "pattern": "^[0-9]+$"},
    "code": {
      "enum": ["Ok", "NoVpe", "Dead", "NoCap", "Revoking", "Refused", "Occupied", "Numbers",
        "BadKind", "Wider", "NoService", "Gone", "Unbound", "Rights", "Range", "SelfExchange"]
    },
    "setup": {
      "type": "object",
      "additionalProperties": false,
      "required": ["line", "version", "window", "kernels", "pes", "vpes", "offers", "denies", "kills"],
      "properties": {
        "line": {"const": "setup"},
        "version": {"enum": [1, 2]},
        "window": {"type": "integer", "minimum": 1, "maximum": 32},
        "kernels": {"type": "integer", "minimum": 1, "maximum": 32},
        "pes": {"type": "array", "items": {
          "type": "object",
          "additionalProperties": false,
          "required": ["pe", "kernel"],
          "properties": {"pe": {"$ref": "#/$defs/vpe"}, "kernel": {"$ref": "#/$defs/kernel"}}
        }},
        "vpes": {"type": "array", "items": {
          "type": "object",
          "additionalProperties": false,
          "required": ["vpe", "pe", "kernel", "roots", "calls"],
          "properties": {
            "vpe": {"$ref": "#/$defs/vpe"},
            "pe": {"$ref": "#/$defs/vpe"},
            "kernel": {"$ref": "#/$defs/kernel"},
            "roots": {"type": "array", "items": {
              "type": "object",
              "additionalProperties": false,
              "required": ["selector", "key", "object"],
              "properties": {
                "selector": {"$ref": "#/$defs/selector"},
                "key": {"$ref": "#/$defs/key"},
                "object": {"type": "string"}
              }
            }},
            "calls": {"type": "array", "items": {"type": "string"}}
          }
        }},
        "offers": {"type": "array", "items": {
          "type": "object",
          "additionalProperties": false,
          "required": ["service", "index", "selector"],
          "properties": {
            "service": {"$ref": "#/$defs/byte"},
            "index": {"$ref": "#/$defs/byte"},
            "selector": {"$ref": "#/$defs/selector"}
          }
        }},
        "denies": {"type": "array", "items": {
          "type": "object",
          "additionalProperties": false,
          "required": ["vpe", "asker"],
          "properties": {"vpe": {"$ref": "#/$defs/vpe"}, "asker": {"$ref": "#/$defs/vpe"}}
        }},
        "kills": {"type": "array", "items": {
          "type": "object",
          "additionalProperties": false,
          "required": ["vpe", "replies"],
          "properties": {"vpe": {"$ref": "#/$defs/vpe"}, "replies": {"$ref": "#/$defs/decimal"}}
        }}
      }
    },
    "message": {
      "type": "object",
      "additionalProperties": false,
      "required": ["name", "words"],
      "properties": {
        "name": {
          "enum": ["obtain-req", "obtain-ok", "obtain-no", "delegate-req", "delegate-prepared",
            "delegate-no", "ack", "orphan", "revoke-req", "revoke-done", "unlink"]
        },
        "words": {"type": "string"},
        "place": {"$ref": "#/$defs/place"},
        "parent": {"$ref": "#/$defs/key"},
        "key": {"$ref": "#/$defs/key"},
        "object": {"type": "string"},
        "vpe": {"$ref": "#/$defs/vpe"},
        "selector": {"$ref": "#/$defs/selector"},
        "service": {"$ref": "#/$defs/key"},
        "index": {"$ref": "#/$defs/byte"},
        "code": {"$ref": "#/$defs/code"},
        "accepted": {"type": "boolean"},
        "job": {"$ref": "#/$defs/count"}
      }
    },
    "entry": {
      "type": "object",
      "additionalProperties": false,
      "required": ["line", "entry", "kernel", "event"],
      "properties": {
        "line": {"const": "entry"},
        "entry": {"$ref": "#/$defs/count"},
        "kernel": {"$ref": "#/$defs/kernel"},
        "event": {"enum": ["call", "fetch", "handle", "upcall", "resume", "flush", "kill"]},
        "vpe": {"$ref": "#/$defs/vpe"},
        "peer": {"$ref": "#/$defs/kernel"},
        "call": {
          "type": "object",
          "additionalProperties": false,
          "required": ["number", "words"],
          "properties": {"number": {"$ref": "#/$defs/count"}, "words": {"type": "string"}}
        },
        "message": {"$ref": "#/$defs/message"},
        "ask": {
          "type": "object",
          "additionalProperties": false,
          "required": ["asker", "answer"],
          "properties": {"asker": {"$ref": "#/$defs/vpe"}, "answer": {"enum": ["yes", "no", "drop"]}}
        },
        "grant": {
          "type": "object",
          "additionalProperties": false,
          "required": ["parent", "key"],
          "properties": {"parent": {"$ref": "#/$defs/key"}, "key": {"$ref": "#/$defs/key"}}
        },
        "cut": {"$ref": "#/$defs/key"},
        "reply": {
          "type": "object",
          "additionalProperties": false,
          "required": ["vpe", "number", "code"],
          "properties": {
            "vpe": {"$ref": "#/$defs/vpe"},
            "number": {"type": "integer", "minimum": 0, "maximum": 15},
            "code": {"$ref": "#/$defs/code"}
          }
        }
      }
    },
    "audit": {
      "type": "object",
      "additionalProperties": false,
      "required": ["line", "made", "cut", "held"],
      "properties": {
        "line": {"const": "audit"},
        "made": {"$ref": "#/$defs/count"},
        "cut": {"$ref": "#/$defs/count"},
        "held": {"type": "array", "items": {
          "type": "object",
          "additionalProperties": false,
          "required": ["key", "selector"],
          "properties": {"key": {"$ref": "#/$defs/key"}, "selector": {"$ref": "#/$defs/selector"}}
        }}
      }
    }
  }
}
"##;
